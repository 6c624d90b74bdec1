//! The meaning of a program: its instances, their equations, the rounds that solve them, and the laws of the
//! solution. The definitions stand in `specs/`. What the crates above share stands here too: the parts of a program,
//! the codes of values and instances, and what an evaluation reads values from.
#![tactic(auto)]

mod chain;
mod coding;
mod laws;
mod reader;
mod spans;
mod system;

pub use chain::Chain;
pub use code_sets::Code;
pub use coding::{Args, EqSite, Instance, NodeRef, QueryId, Single, Tokens, TreeImage, Up, Value};
pub use laws::{
    assigned_demands, assigned_values, circular_as_declared, closed_set, demands_instances,
    ended_has_value, finished_rounds, growing_demands, growing_values, instances_have_equations,
    keys_of_queries, listed_instances, loop_has_no_value, lower_below, lower_joined, lower_raised,
    nodes_of_subtrees, offers_of_collections, one_solution, order_of_ints, order_of_texts,
    order_of_truths, reach_is_demanded, rising_demands, roots_of_collections, rounds_end,
    stuck_has_none, value_or_loop, values_have_types, well_typed_values,
};
pub use reader::Reader;
pub use spans::Span;
pub use system::{Queries, System};
