//! Which equation gives an attribute its value at a node: for a synthesized attribute that of the nearest class, from the node's class
//! upwards; for an inherited one that of the closest node above which has an equation that covers the way to the node. Above the root of a tree
//! that was made stands its owner.
#![tactic(auto)]

mod climb;
mod walk;
mod ways;

pub use climb::{class_at, equation_of, find_equation, made_arguments};
pub use ways::{Start, Ways, find_noted};
