//! J17 of an expression: how many tokens it may have.
//!
//! The events of a sentence say where an outermost expression begins and ends. [`note_long`] counts the tokens between, and notes the first
//! that is one too many.
#![tactic(auto)]

mod limits;

pub use limits::note_long;
