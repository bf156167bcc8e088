//! Kernels over whole rows. They take no memory.
#![tactic(auto)]

mod rows;

pub use rows::relax_row;
