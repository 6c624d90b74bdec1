//! What aspects declare and give, as it is written, and what names and types mean where they are written.
#![tactic(auto)]

mod classes;
mod scope;
mod written;
mod written_types;

pub use classes::check_class;
pub use scope::{Member, Scope, Variable, no_params};
pub use written::{Given, Head, contributions, declarations, givens};
pub use written_types::{kind_written, same_kind, type_written};
