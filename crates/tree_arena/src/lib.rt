//! Source trees: nodes in preorder, behind accessors that take no memory and constant time.
//!
//! Each component of each node is a part of the tree. Parts are numbered node by node, and in each node by component. A [`Tree`] keeps a
//! few words for each node, the code at each part, and for each part the nodes that hang there, side by side.
#![tactic(auto)]

mod ends;
mod keeping;
mod laws;
mod parts;
mod tree;

pub use laws::{accessors_of_terms, children_and_parents, one_term, trees_of_terms};
pub use tree::{FirstNode, Tokens, Tree};
