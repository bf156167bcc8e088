//! The words of the command line, whose options `clap` reads.
#![tactic(auto)]

mod choice;
mod command;
mod number;
mod options;
mod read;

pub use command::{Command, Extras, Usage};
pub use read::read_words;
