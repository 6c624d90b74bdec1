//! The memo table: a cell for each instance whose value was asked for, with its value once that is settled. The words of a set are raised from
//! its codes, and its value is read from the words.
#![tactic(auto)]

mod calls;
mod cells;
mod instances;
mod keys;
mod learning;
mod probe;
mod set_raising;
mod set_showing;
mod steps;
mod truths;
mod view;
mod words;
mod work;

pub use calls::CellsFull;
pub use cells::{Cells, Pass};
pub use instances::{claim_instance, seek_instance};
pub use keys::{Key, Slot};
pub use set_raising::{codes_of, raise_codes};
pub use set_showing::value_shown;
pub use view::{Frame, View};
pub use work::{Words, Work};
