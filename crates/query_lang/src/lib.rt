//! The text of values in replies.
#![tactic(auto)]

mod laws;
mod replies;

pub use laws::{has_reply_text, one_reply_text};
pub use replies::add_reply;
