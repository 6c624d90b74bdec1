//! From the bytes of the files of a command to the program, the counts or the tree that they say, or to the first file that is refused.
#![tactic(auto)]

mod files;
mod laws;
mod queries;
mod query_language;
mod query_table;

pub use files::{Refusal, counts_text, read_system, tree_text};
pub use laws::{said_programs, said_sources};
