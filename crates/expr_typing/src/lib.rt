//! The forms of expressions: their types, what they say, made of what their parts say, and the rules on their parts and on calls.
#![tactic(auto)]

mod calls;
mod created;
mod ranges;
mod set_forms;
mod sides;
mod standing;
mod typed;

pub use calls::{Called, check_call};
pub use created::{Takes, argument_before, check_child, check_made, check_size, new_said, taken};
pub use ranges::{
    Elements, check_over, check_range, element_type, elements_over, over_said, quantified_type,
};
pub use set_forms::{
    SetForm, check_count, check_one, check_pair, form_named, one_said, one_type, pair_said,
    pair_type, settled,
};
pub use sides::{Part, check_choice, check_fit, check_node, check_sides, else_place, place_of};
pub use standing::{Prefix, Stands};
pub use typed::{
    Typed, all_arguments, called, cast, chosen, common_of, joined, prefixed, result_of, tested,
    type_of_class,
};
