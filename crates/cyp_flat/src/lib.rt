//! The rows of the rules that unfold and call nothing.
#![tactic(auto)]

mod candidates;
mod flat;
mod guesses;
mod places;

pub use flat::flat_rows;
pub use guesses::pick_rows;
