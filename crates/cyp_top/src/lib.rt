//! Whole commands over what is handed in: words, a source of bytes and a sink.
#![tactic(auto)]

mod answer;
mod laws;
mod refusal;
mod root;
mod run;
mod status;
#[cfg(test)]
mod tests;

pub use laws::{whole_output_is_one, workers_change_nothing, written_programs_are_correct};
pub use run::{output_is_one, run_still};
pub use status::Status;
