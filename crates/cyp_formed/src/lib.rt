//! What a text says is formed: its faults of limits, its reading, and laws.
#![tactic(auto)]

mod laws;

pub use laws::{
    goal_that_is_read_is_formed, goal_that_is_read_is_sorted, predicates_that_are_read_are_formed,
};
