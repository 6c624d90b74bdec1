//! The rules of types for expressions as they are written, and that the checker refuses exactly those that have no type by them.
#![tactic(auto)]

mod laws;

pub use laws::{
    accepted_exactly, common_types_are_least, contributions_well_typed_exactly, created_exactly,
    equations_well_typed_exactly, expressions_have_one_type, members_are_spelled_or_named,
    typed_expressions_break_nothing, types_fit_in_words, well_typed_exactly,
};
