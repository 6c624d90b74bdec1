//! The rules on rising equations, M1 to M5: in the equation of a circular attribute calls of circular attributes stand in permitted positions
//! alone, so that its value grows with theirs.
#![tactic(auto)]

mod calls;
mod equations;
mod laws;

pub use equations::check_monotone;
pub use laws::{
    accepted_rises, accepted_rules_are_permitted, calls_are_found, first_broken_is_decided,
    one_position_decides, permitted_rises, permitted_rules_are_accepted, positions_decide,
    unbroken_is_permitted,
};
