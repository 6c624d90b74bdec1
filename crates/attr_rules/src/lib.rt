//! Attributes: their declarations, typed expressions with the rules of their types, and which equation holds at nodes of each class.
#![tactic(auto)]

mod accessors;
mod attributes;
mod covering;
mod dispatch;
mod expression;
mod kinds;
mod paths;
mod queries;
mod rows;
mod types;

pub use accessors::{Access, Accessor, accessor_of, is_spelled};
pub use attributes::{Attributes, NamedAttr};
pub use dispatch::{Dispatch, Reach, Target, Via};
pub use expression::{NewArgs, Operator, Quantifier, SetOperator, TArgs, TExpr};
pub use kinds::{Attr, AttrId, Collecting, EqId, Kind, Method, Params, Part, Sort, Start, TextId};
pub use queries::QueryEq;
pub use types::{ValueType, common, comparable, fits, may_be_element};
