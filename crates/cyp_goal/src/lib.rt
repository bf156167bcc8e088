//! The normal form of a goal with its companions, and the facts of a goal.
#![tactic(auto)]

mod addresses;
mod draft;
mod elements;
mod equations;
mod goal_facts;
mod laws;
mod limits;
mod normal_form;
mod numbering;
mod occurs;
mod once;
mod pruning;
mod solving;
mod substitution;
mod tidying;
mod touches;
mod units;
mod var_table;

pub use draft::TooLarge;
pub use goal_facts::facts;
pub use laws::{
    normal_of_a_normal_form, normal_over_other_predicates, normal_under_new_logical_names,
    normal_under_new_names,
};
pub use normal_form::{Renamed, normal};
