//! Whether two typed expressions are equal, with the places that they keep.
#![tactic(auto)]

mod comparing;

pub use comparing::same;
