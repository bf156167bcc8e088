//! The measure of a call: what falls, and the numbers in which measures are compared.
#![tactic(auto)]

mod decrease;
mod numbers;

pub use decrease::decreases;
pub use numbers::levels;
