//! The rules that each attribute has its equations: completeness, and the classes at which an inherited attribute can be met uncovered.
#![tactic(auto)]

mod completeness;
mod covering;
mod created;

pub use completeness::check_completeness;
