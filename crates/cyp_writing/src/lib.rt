//! Specifications, printed.
#![tactic(auto)]

mod printed_bodies;
mod printed_chunks;
mod printed_lists;
mod printed_literals;
mod printed_params;
mod printed_terms;
mod printer;
mod written;

pub use written::spec_text;
