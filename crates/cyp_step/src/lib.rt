//! The step relation: rules, what is shown at a goal, and the premises of a rule at a node.
#![tactic(auto)]

mod allocating;
mod applying;
mod callable;
mod called;
mod calling;
mod closing;
mod entries;
mod existentials;
mod flat_goals;
mod flat_rules;
mod framing;
mod identity;
mod laws;
mod measures;
mod mends;
mod narrow;
mod next;
mod occurs;
mod opening;
mod placing;
mod rows;
mod rule;
mod showing;
mod steps;
mod testable;

pub use existentials::first_exist;
pub use laws::{
    left_nodes_are_raw, premises_are_nodes, premises_are_well_linked, root_is_node,
    root_is_well_linked,
};
pub use mends::writes_for;
pub use next::next_of;
pub use occurs::goal_vars;
pub use rows::{Tried, add_row, row, rows_of, try_rule};
pub use rule::{CallBy, Row, Rule};
pub use showing::{dead, shown};
pub use steps::{is_step, premises_of};
