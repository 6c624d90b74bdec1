//! Lines of superclasses, and which classes are subclasses of which by them.
ghost use Rattle.std.specs.Prelude.{◌↔◌, ◌≡◌, ◌⊎◌, IfOk, IsTrue, length, vec_len};
ghost use Rattle.superclasses.specs.Rows.{Mark, MarksLine, rows_mark};
ghost use Rattle.superclasses.specs.Superclasses.{AreWithin, IsAbove, is_sub, line_of, nearest_common, superclass_of};

use rag_io::Memory;
use std::alloc::Global;
use std::marker::Model;

/// The superclass of a class, if it has one.
pub(crate) fn superclass_of(superclasses: &[Option<usize>], class: usize) -> Option<usize>
    ensures { result ≡ superclass_of superclasses.now class }
{
    superclasses.get(class).copied().flatten()
}

/// The superclasses of a class, the nearest first.
pub fn line_of(
    alloc: Global,
    superclasses: &[Option<usize>],
    class: usize,
) -> Result<Vec<usize>, Memory>
    ensures { IfOk result (λ v. v.items ≡ line_of superclasses.now class) }
{
    let mut line = Vec::new(alloc);
    let mut above = superclass_of(superclasses, class);
    for _ in 0..superclasses.len() {
        match above {
            None => return Ok(line),
            Some(number) => {
                line.push(number).map_err(|_| Memory)?;
                above = superclass_of(superclasses, number);
            }
        }
    }
    Ok(line)
}

/// The row of a class, which marks each class above it.
fn row_of(alloc: Global, superclasses: &[Option<usize>], class: usize) -> Result<Vec<bool>, Memory>
    ensures len { IfOk result (λ row. vec_len row ≡ length superclasses.now) }
    ensures exact { IfOk result (λ row. MarksLine superclasses.now class row.items) }
{
    let line = line_of(alloc, superclasses, class)?;
    let mut row = vec![in alloc; false; superclasses.len()].map_err(|_| Memory)?;
    for above in &line {
        if let Some(mark) = row.get_mut(*above) {
            *mark = true;
        }
    }
    Ok(row)
}

/// The rows of all classes.
fn rows_of(alloc: Global, superclasses: &[Option<usize>]) -> Result<Vec<Vec<bool>>, Memory>
    requires { AreWithin superclasses.now }
    ensures { IfOk result (λ v. Mark superclasses.now v.items) }
{
    let mut rows = Vec::new(alloc);
    for class in 0..superclasses.len() {
        let row = row_of(alloc, superclasses, class)?;
        rows.push(row).map_err(|_| Memory)?;
    }
    Ok(rows)
}

/// Whether the row of the first class marks the second.
fn is_marked(rows: &[Vec<bool>], class: usize, above: usize) -> bool
    ensures { result ≡ rows_mark rows.now class above }
{
    match rows.get(class) {
        None => false,
        Some(row) => row.get(above).copied().unwrap_or(false),
    }
}

/// Which classes are subclasses of which.
#[derive(Drop)]
pub struct Subclasses {
    superclasses: Vec<Option<usize>>,
    rows: Vec<Vec<bool>>,
}

impl Model for Subclasses {
    ghost use Rattle.std.specs.Prelude.{ℕ, List, Option};
    ghost use Rattle.superclasses.specs.Rows.{Mark};

    ghost Value = { List (Option ℕ) };

    ghost view = { λ s. s.superclasses.items };

    ghost invariant = { λ s. Mark s.superclasses.items s.rows.items };
}

impl Subclasses {
    /// The subclasses by the superclass of each class, if it has one.
    pub fn of_superclasses(
        alloc: Global,
        superclasses: Vec<Option<usize>>,
    ) -> Result<Subclasses, Memory>
        requires { AreWithin superclasses.items }
        ensures { IfOk result (λ s. s ≡ superclasses.items) }
    {
        let rows = rows_of(alloc, &superclasses)?;
        Ok(Subclasses { superclasses, rows })
    }

    /// The superclass of a class, if it has one.
    pub fn superclass(&self, class: usize) -> Option<usize>
        ensures { result ≡ superclass_of self.now class }
    {
        superclass_of(&self.superclasses, class)
    }

    /// Whether a class is another or below it.
    pub fn is_sub(&self, class: usize, above: usize) -> bool
        ensures flag { result ≡ is_sub self.now class above }
        ensures meaning { IsTrue result ↔ (class ≡ above) ⊎ IsAbove self.now class above }
    {
        class == above || is_marked(&self.rows, class, above)
    }

    /// The nearest class from the first one upwards that the second is or is below.
    pub fn nearest_common(&self, first: usize, second: usize) -> Option<usize>
        ensures { result ≡ nearest_common self.now first second }
    {
        if self.is_sub(second, first) {
            return Some(first);
        }
        let mut class = first;
        for _ in 0..self.superclasses.len() {
            class = self.superclass(class)?;
            if self.is_sub(second, class) {
                return Some(class);
            }
        }
        None
    }

    /// The same subclasses once more.
    pub fn copy(&self, alloc: Global) -> Result<Subclasses, Memory>
        ensures { IfOk result (λ s. s ≡ self.now) }
    {
        let superclasses = Vec::from_slice(alloc, &self.superclasses).map_err(|_| Memory)?;
        Subclasses::of_superclasses(alloc, superclasses)
    }
}
