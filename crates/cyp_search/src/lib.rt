//! Best-first searches over a tree of places and a queue of its leaves.
#![tactic(auto)]

mod best_first;
mod frontier;
mod laws;
mod moves;

pub use best_first::search;
pub use laws::{report_is_of_the_least_stage, report_is_unique, stages_are_numbered};
