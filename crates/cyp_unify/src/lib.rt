//! How a chunk is framed, and how a companion lies in a node.
#![tactic(auto)]

mod binding;
mod found;
mod frames;
mod listing;
mod meets;
mod pairing;
mod vars;
mod walk;

pub use found::{Match, Mend, Pair};
pub use frames::frame_pairs;
pub use listing::matches;
pub use pairing::match_at;
