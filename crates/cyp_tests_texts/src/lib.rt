//! Tests of the reading of texts and specifications, one file a crate.
#![tactic(auto)]

#[cfg(test)]
mod lex;
#[cfg(test)]
mod names;
#[cfg(test)]
mod spec;
#[cfg(test)]
mod text;
