//! Circular attributes: the least solution on a set of instances that is closed step by step. A member's equation is evaluated where something
//! that it read has risen since, and the set is sealed once a pass over all its members changed nothing.
#![tactic(auto)]

mod advancing;
mod claiming;
mod local;
mod members;
mod parts;
mod raising;
mod reading;
mod sealed;
mod visiting;

pub use advancing::{CircFault, CircTurn, advance};
pub use local::Local;
