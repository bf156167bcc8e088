//! The rows of Call.
#![tactic(auto)]

mod calls;

pub use calls::call_rows;
