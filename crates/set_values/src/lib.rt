//! Operations on sets that are kept as codes. What they come to is said by the values that the codes stand for.
#![tactic(auto)]

mod combining;
mod listing;
mod members;
mod ordering;

pub use combining::set_operate;
pub use listing::{elements, elements_in_order};
pub use members::{contains, count, known_text, single_set, size};
