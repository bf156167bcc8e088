//! Tests of heaps, goals, normal forms and matches.
#![tactic(auto)]

#[cfg(test)]
mod goal;
#[cfg(test)]
mod heap;
#[cfg(test)]
mod unify;
