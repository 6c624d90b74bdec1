//! Jumps over classes: to each class, the class that a jump from it leads to, if any.
//!
//! A jump goes up some number of steps, the same from each class. One of as many steps as there are classes meets a
//! class twice, so it ends on a loop; and each class of a loop is that many steps above a class of the loop. So what
//! such jumps lead to are the classes on loops.
ghost use Rattle.std.specs.Prelude.{◌↔◌, ◌≡◌, ◌<◌, ℕ, IfOk, IsSome, IsTrue, Some, false, length, map, slice_index_or, vec_len};
ghost use Rattle.std.specs.List.{Contains};
ghost use Rattle.std.specs.Option.{option_and_then};
ghost use Rattle.superclasses.specs.Superclasses.{IsAbove, superclass_of};

use crate::subclasses::superclass_of;
use std::alloc::{AllocError, Global};

/// Where a jump leads from the class that another leads to.
fn next(jumps: &[Option<usize>], class: Option<usize>) -> Option<usize>
    ensures { result ≡ option_and_then (superclass_of jumps.now) class }
{
    superclass_of(jumps, class?)
}

/// The jumps that are twice as far: each is two of `jumps`, one after the other.
fn doubled(alloc: Global, jumps: &[Option<usize>]) -> Result<Vec<Option<usize>>, AllocError>
    ensures { IfOk result (λ v. v.items ≡ map (λ class. option_and_then (superclass_of jumps.now) class) jumps.now) }
{
    jumps.iter().map(|class| next(jumps, *class)).collect(alloc)
}

/// Whether any of the jumps leads to a class.
fn lead_anywhere(jumps: &[Option<usize>]) -> bool
    ensures { IsTrue result ↔ (a : ℕ) × (a < length jumps.now) × IsSome (superclass_of jumps.now a) }
{
    jumps.iter().any(|class| class.is_some())
}

/// Marks the classes that a jump leads to.
fn marked(alloc: Global, jumps: &[Option<usize>]) -> Result<Vec<bool>, AllocError>
    ensures len { IfOk result (λ v. vec_len v ≡ length jumps.now) }
    ensures exact { IfOk result (λ v. (c : ℕ) → IsTrue (slice_index_or v.items c false) ↔ (c < length jumps.now) × Contains jumps.now (Some c)) }
{
    let mut marks = vec![in alloc; false; jumps.len()]?;
    for jump in jumps {
        if let Some(class) = jump
            && let Some(mark) = marks.get_mut(*class)
        {
            *mark = true;
        }
    }
    Ok(marks)
}

/// Marks the classes that are their own superclasses: jumps of one step are doubled until they go up as many steps as
/// there are classes, or lead nowhere.
pub(crate) fn own_marks(
    alloc: Global,
    superclasses: &[Option<usize>],
) -> Result<Vec<bool>, AllocError>
    ensures len { IfOk result (λ v. vec_len v ≡ length superclasses.now) }
    ensures exact { IfOk result (λ v. (i : ℕ) → IsTrue (slice_index_or v.items i false) ↔ IsAbove superclasses.now i i) }
{
    let mut jumps = Vec::from_slice(alloc, superclasses)?;
    let mut steps = 1;
    while steps < superclasses.len() && lead_anywhere(&jumps) {
        jumps = doubled(alloc, &jumps)?;
        steps *= 2;
    }
    marked(alloc, &jumps)
}
