//! Specifications: their type, read from a text and printed, with the faults of predicates and
//! limits.
#![tactic(auto)]

mod block_sizes;
mod clause_limits;
mod elements;
mod goal_limits;
mod guards;
mod laws;
mod limits;
mod pred_limits;
mod read;
mod reading;
mod root_limits;
mod spec;
mod write;

pub use laws::{a_text_has_one_reading, no_text_is_read_and_refused};
pub use read::read_spec;
pub use spec::Spec;
pub use write::write_spec;
