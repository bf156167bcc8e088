//! The order of leaves: entries of priorities and numbers, where those of dead leaves stay until
//! they are popped.
#![tactic(auto)]

mod entry;
mod queue;

pub use entry::Entry;
pub use queue::Queue;
