//! Tests of the text of a program, one file a crate.
#![tactic(auto)]

#[cfg(test)]
mod print;
