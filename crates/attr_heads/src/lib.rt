//! The rules on declarations and on what equations and contributions are for: the attributes that are declared, and the targets of equations.
#![tactic(auto)]

mod collections;
mod contributions;
mod created;
mod declared;
mod heads;
mod inheriting;
mod parameters;
mod paths;
mod starts;
mod targets;

pub use contributions::{Aim, aim_of};
pub use heads::check_heads;
pub use paths::equation_names;
pub use targets::check_targets;
