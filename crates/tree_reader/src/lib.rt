//! The reader of the text of source trees.
//!
//! A text is read in steps. Its syntax is checked first (`tree_syntax`). Then its texts go into the pool, and one pass over the tokens
//! notes what each node, each pair of brackets and each value breaks where it stands, and lays the nodes in preorder. It keeps what is
//! open on a stack of its own, so that nothing recurses on the depth of the tree.
#![tactic(auto)]

mod frames;
mod from_bytes;
mod laws;
mod laying;
mod misplaced;
mod reading;
mod steps;
mod values;
mod wants;

pub use from_bytes::read_tree_bytes;
pub use laws::one_tree;
pub use reading::read_tree;
