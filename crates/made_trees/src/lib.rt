//! The trees that are made in an evaluation, and what stands where in them: what codes stand for, the classes, children and tokens of nodes
//! that were made, what stands above them, and their order.
#![tactic(auto)]

mod keeping;
mod makers;
mod news;
mod order;
mod roots;
mod spots;

pub use keeping::{KeepsMakers, argument_of, child_of, class_of, maker_of, token_place_of, up_of};
pub use makers::{Lent, Makers};
pub use order::order_of;
pub use roots::class_made;
