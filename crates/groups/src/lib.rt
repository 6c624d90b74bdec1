//! Numbers in groups.
//!
//! Each number from 0 has a key: the group that it stands in, or none. [`Groups`] keeps the members of each group side
//! by side, and [`places`] tells each number's place among the members of its group.
#![tactic(auto)]

mod counting;
mod grouping;

pub use counting::places;
pub use grouping::Groups;
