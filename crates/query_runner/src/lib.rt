//! A run of the program: its words, the files in the form that is evaluated so far, the replies, and what is written; the top call.
#![tactic(auto)]

mod laws;
mod running;

pub use laws::{full_or_refused, one_answer};
pub use running::run;
