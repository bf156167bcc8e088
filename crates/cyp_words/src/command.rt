use cyp_space::Settings;
use thiserror::Error;

/// A command, as the words name it.
#[derive(Clone, Copy, Debug, PartialEq, Eq)]
pub enum Command {
    /// Search for a program of the specification that is read.
    Synth(Settings, Extras),
    /// Run the program that is read for so many steps at most, 1 to 1,000,000.
    RunOn(u32),
    /// Search for a program of the chain of so many cells, 1 to 16.
    Gen(u32),
}

/// What is printed beside the answer.
#[derive(Clone, Copy, Debug, PartialEq, Eq)]
pub struct Extras {
    /// The report of the search.
    pub stats: bool,
}

/// The words are no command.
#[derive(Clone, Copy, Debug, PartialEq, Eq, Error)]
#[error("words refused")]
pub struct Usage;
