//! Abstract grammars: their classes and components, and the reader of `.ast` files.
#![tactic(auto)]

mod building;
mod from_bytes;
mod grammar;
mod laws;
mod naming;
mod numbering;
mod reading;

pub use from_bytes::read_ast_bytes;
pub use grammar::{ClassId, Component, Grammar, Shape};
pub use laws::one_grammar;
pub use reading::read_ast;
