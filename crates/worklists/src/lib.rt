//! The order in which the members of a local set are evaluated, in sweeps, and a search for those that lead to nothing that is missing.
//! Members are told by the numbers in the order of their admission; what they are and what values they have isn't known here.
#![tactic(auto)]

mod due;
mod search;
mod worklist;

pub use worklist::Worklist;
