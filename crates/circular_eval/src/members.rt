// The members of a local set.

use equation_law::Value;
use memo_cells::Slot;

/// A circular instance of a local set.
#[derive(Drop)]
pub struct Member {
    /// Its cell, or None where it was sealed when it was met: then its value is final.
    pub(crate) slot: Option<Slot>,
    /// A value that is at most what the words show, or the final one.
    pub(crate) value: Value,
    /// The member, by its number, that demanded it first; None for the start.
    pub(crate) by: Option<usize>,
}
