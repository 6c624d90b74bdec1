//! The reply lines of the queries of a program.
#![tactic(auto)]

mod replies;

pub use replies::{ReplyFault, reply_lines};
