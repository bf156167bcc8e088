//! Tests of steps, rows and moves.
#![tactic(auto)]

#[cfg(test)]
mod flat;
#[cfg(test)]
mod moves;
#[cfg(test)]
mod step;
