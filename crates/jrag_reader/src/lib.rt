//! The reader of aspects and of single expressions.
#![tactic(auto)]

mod building;
mod classes;
mod events;
mod expression_forms;
mod from_bytes;
mod item_forms;
mod laws;
mod parts;
mod reading;

pub use aspect_items::{
    Aspects, Circular, Collection, Contribution, Equation, Expr, Inherited, Item, Name, Operator,
    Parameter, Quantifier, Signature, Synthesized, Type, TypeName,
};
pub use from_bytes::read_jrag_bytes;
pub use laws::one_reading;
pub use reading::{read_expr, read_jrag};
