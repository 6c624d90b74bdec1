//! The rules that an input can break, and which of the broken ones counts.
//!
//! A reader checks its input in phases. The first phase that finds a broken rule decides, and of the rules that it finds broken the
//! [`Earliest`] counts: the first by its place, and at one place the first in the order of [`Rule`].
#![tactic(auto)]

mod broken;
mod earliest;
mod laws;
mod rule;

pub use broken::{Broken, ReadFault};
pub use earliest::Earliest;
pub use laws::one_first_broken;
pub use rule::Rule;
