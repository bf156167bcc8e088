//! Difference constraints over the integers, decided exactly.
#![tactic(auto)]

mod bounds;
mod crowds;
mod gaps;
mod ints;
mod places;
mod solver;
mod spreading;
mod system;

pub use bounds::{Adding, Bounds};
pub use ints::are_ints;
pub use places::variables_of;
pub use solver::{Value, solve, solve_with};
