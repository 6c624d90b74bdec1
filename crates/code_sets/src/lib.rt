//! Sets of codes, in their order.
#![tactic(auto)]

mod codes;
mod kept;
mod merges;
mod word;

pub use codes::{Code, Codes};
