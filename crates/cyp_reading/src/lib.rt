//! What a text's tree says: terms, literals, chunks, predicates and the goal.
#![tactic(auto)]

mod chunks;
mod clauses;
mod goals;
mod literals;
mod terms;
mod unions;

pub use chunks::{read_args, read_chunk, read_chunks};
pub use clauses::read_preds;
pub use goals::read_goal;
pub use literals::{read_lit, read_lits};
pub use terms::read_int;
pub use unions::read_set;
