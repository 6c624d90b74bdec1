//! The rounds of the model over a list of instances, run as they are defined: the slow definition in executable form.
#![tactic(auto)]

mod checking;
mod circular;
mod coding;
mod growing;
mod inner;
mod instances;
mod listing;
mod naming;
mod places;
mod rising;
mod rooms;
mod rounds;
mod setting;
mod standing;
mod values;

pub use instances::NameList;
pub use naming::{NamedArg, NamedArgs, NamedInstance, NodeName};
pub use rounds::{Table, plain_rounds};
pub use values::NamedValue;
