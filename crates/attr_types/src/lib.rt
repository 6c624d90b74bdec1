//! The checker of aspects: which rules they break over a grammar, and the rules of attributes that they make.
#![tactic(auto)]

mod asked;
mod both_sides;
mod checking;
mod contributions;
mod equations;
mod laws;

pub use asked::query_of_call;
pub use checking::check;
pub use laws::{
    accepted_rules, contributions_are_made_well, equations_are_made_well,
    uncovered_classes_are_found,
};
