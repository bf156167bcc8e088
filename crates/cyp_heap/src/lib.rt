//! Chunks, symbolic heaps, predicates, goals, companions and nodes.
#![tactic(auto)]

mod chunk;
mod goal;
mod laws;
mod pred;

pub use chunk::{Arg, BlockAt, CellAt, Chunk, Heap, InstOf, TooMany};
pub use goal::{Goal, Link, Node, Raw};
pub use laws::{
    applied_chunks_hold, height_is_within_cells, instance_means_at_any_bound,
    instance_means_by_members, one_guard_is_true, side_heights_are_within_cells,
};
pub use pred::{Clause, Pred, Preds};
