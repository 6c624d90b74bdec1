//! One evaluation of an expression: its meaning under what a reader has, or the first demand for which the reader has no value. It is
//! proved once, for every reader.
#![tactic(auto)]

mod accessors;
mod binding;
mod evaluation;
mod nodes;
mod operators;
mod parts;
mod saved;
mod sites;
mod trees;

pub use saved::Saved;
pub use sites::{
    Turn, evaluate, evaluate_instance, evaluate_query, is_declared, kind_of, resume_at,
    resume_body, resume_instance,
};
