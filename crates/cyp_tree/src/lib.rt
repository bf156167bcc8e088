//! The and-or trees of a search: what they are, when they are solved, which leaf comes next.
#![tactic(auto)]

mod arena;
mod bearing;
mod choosing;
mod dying;
mod grafted;
mod laws;
mod mark;
mod marks;
mod newborn;
mod places;
mod tree;

pub use grafted::Grafted;
pub use laws::{
    decided_tree_stays, grafted_size_adds_up, grafted_tree_is_numbered, grafted_tree_is_rising,
    grown_leaf_adds_premises, live_leaf_has_its_place, live_leaf_is_one_leaf, live_leaf_was_live,
    live_leaves_for_any_weight, new_numbers_are_a_run, next_leaf_is_one_leaf, number_has_one_place,
    open_tree_has_a_next_leaf, solved_tree_has_a_derivation,
};
pub use mark::Mark;
pub use tree::Tree;
