//! The texts that tokens write, in a pool.
//!
//! A reader keeps of each text its number in the pool alone. [`pool_texts`] adds the texts of some tokens in their order, and notes a rule
//! that the reader names where the pool is full.
#![tactic(auto)]

mod texts;

pub use texts::{place_of, pool_texts};
