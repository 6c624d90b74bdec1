//! The syntax of the texts of source trees: [`check_syntax`] checks that the tokens of a file write one node.
#![tactic(auto)]

mod language;
mod reading;
mod tree_table;

pub use reading::check_syntax;
