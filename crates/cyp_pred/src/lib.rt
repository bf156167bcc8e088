//! What an instance of a predicate unfolds to.
#![tactic(auto)]

mod bindings;
mod subinstances;
mod unfolded;
mod unfolding;

pub use unfolded::{Next, Unfolded};
pub use unfolding::{unfold, unfold_one};
