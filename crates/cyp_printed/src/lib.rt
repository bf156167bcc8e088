//! A law of printed specifications: each is read back as what it was.
#![tactic(auto)]

mod laws;

pub use laws::what_is_printed_is_read;
