//! The syntax of aspect files and of single expressions: [`push_events`] reads tokens by one grammar and gives the events of their only reading,
//! which say what stands where, or the broken rule.
#![tactic(auto)]

mod classes;
mod jrag_table;
mod language;
mod reading;

pub use classes::{Start, class_of};
pub use reading::push_events;
