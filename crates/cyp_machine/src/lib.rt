//! The machine that runs programs: its states, its steps and their faults, and the input of a run.
#![tactic(auto)]

mod allocations;
mod cause;
mod cells;
mod frame;
mod framing;
mod heap;
mod laws;
mod outcome;
mod parts;
mod run;
mod run_input;
mod state;
mod stepped;
mod store;

pub use allocations::cells_are_within_steps;
pub use cause::Cause;
pub use framing::runs_in_larger_heaps;
pub use laws::{
    halted_state_has_no_step, least_allocation_makes_one_step, least_run_is_one,
    program_that_is_read_is_closed, run_goes_on_or_halts,
};
pub use outcome::Outcome;
pub use parts::{call_runs_as_its_own, run_is_inside_or_past, runs_join_and_split};
pub use run::run_program;
pub use run_input::{an_input_has_one_reading, lexemes_spell_one_input};
pub use state::State;
pub use stepped::Stepped;
pub use store::Store;
