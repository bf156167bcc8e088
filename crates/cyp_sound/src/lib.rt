//! Soundness: the program of an accepted derivation is correct.
#![tactic(auto)]

mod kept;
mod laws;
mod soundness;

pub use laws::{accepted_derivations_are_correct, accepted_derivations_are_safe};
pub use soundness::{Derivation, sound};
