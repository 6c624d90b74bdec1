//! The rules of a grammar: its attributes, the equations that hold at nodes of each class, and the contributions to collections.
#![tactic(auto)]

mod contributions;
mod offered;
mod rules;

pub use contributions::{Contribution, KeptContribution, TypedContribution, add_contribution};
pub use rules::{KeptEquation, Rules};
