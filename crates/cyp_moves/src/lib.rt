//! The move table, by which a search goes on from a node: its definition, what each rule costs, and the
//! space of nodes with the moves that are built.
#![tactic(auto)]

mod alts;
mod cost;
mod rows;
mod space;

pub use cost::cost_of;
pub use space::GoalSpace;
