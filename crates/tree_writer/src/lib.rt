//! The canonical text of source trees, and of the subtrees of nodes.
#![tactic(auto)]

mod laws;
mod parts;
mod showing;
mod writing;

pub use laws::{subtree_read_back, subtrees_of_trees, written_again};
pub use showing::{ShowsNodes, SourceNodes};
pub use writing::{add_subtree, write_tree};
