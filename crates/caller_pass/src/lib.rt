//! The value of an instance on demand: what it demands is evaluated once, and kept in the cells of the memo table.
#![tactic(auto)]

mod asking;
mod desk;
mod evals;
mod faults;
mod left;
mod notebook;
mod resuming;
mod sealed;
mod solving;
mod turns;
mod waiting;
mod walks;

pub use asking::{ask, ask_noted};
pub use desk::Desk;
pub use equation_law::Chain;
pub use evals::Steps;
pub use faults::AskFault;
pub use notebook::Notebook;
