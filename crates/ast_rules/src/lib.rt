//! The rules of an abstract grammar, as an `.ast` file writes them: [`read_rules`] reads them, and [`check_rules`] checks them.
#![tactic(auto)]

mod ast_table;
mod building;
mod language;
mod loops;
mod members;
mod naming;
mod phases;
mod reading;
mod written;

pub use naming::type_of;
pub use phases::{ClassNumbers, check_rules};
pub use reading::read_rules;
pub use written::{Form, Name, WrittenComponent, WrittenRule};
