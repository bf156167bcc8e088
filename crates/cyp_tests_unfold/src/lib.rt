//! Tests of unfolding.
#![tactic(auto)]

#[cfg(test)]
mod lists;
#[cfg(test)]
mod unfolding;
