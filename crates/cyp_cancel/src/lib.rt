//! The words by which workers are told to stop.
#![tactic(auto)]

mod known;
mod law;
mod laws;
mod polling;
mod seen;
mod words;

pub use laws::{
    each_kind_keeps_the_rule, each_kind_leaves_words, fresh_table_meets_the_rule,
    numbers_of_words_fit, numbers_tell_words_apart,
};
pub use polling::Polling;
pub use seen::{Poll, Seen};
pub use words::{CancelKit, Words, WorkerSeat};
