//! Which forms of aspects are evaluated so far.
#![tactic(auto)]

mod forms;

pub use forms::built;
