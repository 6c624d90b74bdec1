//! Expressions as they are written: what they break, and what they say.
#![tactic(auto)]

mod bodies;
mod created;

pub use bodies::type_operand;
pub use created::type_created;
