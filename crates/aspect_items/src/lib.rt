//! The items of aspects, and the expressions in them, as they are written.
#![tactic(auto)]

mod aspects;
mod expression;
mod items;

pub use aspects::Aspects;
pub use expression::{Expr, Name, Operator, Quantifier};
pub use items::{
    Circular, Collection, Contribution, Equation, Inherited, Item, Parameter, Signature,
    Synthesized, Type, TypeName,
};
