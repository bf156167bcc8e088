//! The rows of Open and Close.
#![tactic(auto)]

mod closes;
mod opens;

pub use closes::close_rows;
pub use opens::open_rows;
