//! The program that a derivation by rules that unfold and call nothing stands for, printed.
#![tactic(auto)]

mod body;
mod bytes;
mod lines;
mod main_name;
mod names;
mod program;

pub use program::program_text;
