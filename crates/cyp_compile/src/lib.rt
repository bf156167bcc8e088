//! The program of a derivation.
#![tactic(auto)]

mod laws;

pub use laws::programs_keep_the_rules;
