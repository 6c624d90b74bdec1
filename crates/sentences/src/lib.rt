//! What the readers of grammars, aspects, trees and queries share: [`tokens_of`] gives the tokens of some bytes, or the rule that is broken where
//! none begins, and [`parse_tokens`] reads tokens as a sentence of a [`Language`].
#![tactic(auto)]

mod language;
mod parsing;
mod scanning;

pub use language::Language;
pub use parsing::{classes_of, parse_classes, parse_tokens, sentence};
pub use scanning::tokens_of;
