//! Collections: one walk over what is offered in the subtree of a root, shared by the instances of a collection at all nodes, and for each instance
//! how far it has gone in it. What an instance demands, it demands in the order of the offers, and the walk never runs ahead of a value that is
//! missing.
#![tactic(auto)]

mod collectors;
mod combining;
mod evaluating;
mod lasts;
mod laws;
mod linking;
mod noted_roots;
mod offers;
mod passing;
mod seeking;
mod surveys;
mod weighing;

pub use collectors::{Collector, collector_of, is_collection, root_of};
pub use evaluating::{evaluate_any, survey};
pub use laws::{new_surveys, new_walks, surveys_over, surveys_stay, walks_stay};
pub use noted_roots::Roots;
pub use offers::Offers;
pub use surveys::Survey;
