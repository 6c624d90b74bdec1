//! Superclasses: which classes are above which, directly or through others.
//!
//! Classes go by number, and a list gives each the number of its superclass, if it has one. [`own_superclasses`] tells
//! which classes are their own superclasses, [`line_of`] lists the superclasses of one, and [`Subclasses`] keeps for
//! each class which others are above it.
#![tactic(auto)]

mod jumps;
mod subclasses;

ghost use Rattle.std.specs.Prelude.{◌↔◌, ◌≡◌, ℕ, IfOk, IsTrue, false, length, slice_index_or, vec_len};
ghost use Rattle.superclasses.specs.Superclasses.{IsAbove};

use jumps::own_marks;
use rag_io::Memory;
use std::alloc::Global;
pub use subclasses::{Subclasses, line_of};

/// Whether each class is its own superclass, directly or through others. The number of its superclass, if any, stands
/// in `superclasses` at its own number; one past the end is that of a class with no superclass. This takes time in
/// proportion to `n log n` for `n` classes, however long the lines of superclasses are.
pub fn own_superclasses(alloc: Global, superclasses: &[Option<usize>]) -> Result<Vec<bool>, Memory>
    ensures len { IfOk result (λ v. vec_len v ≡ length superclasses.now) }
    ensures exact { IfOk result (λ v. (i : ℕ) → IsTrue (slice_index_or v.items i false) ↔ IsAbove superclasses.now i i) }
{
    own_marks(alloc, superclasses).map_err(|_| Memory)
}
