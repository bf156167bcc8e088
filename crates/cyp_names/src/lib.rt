//! What a specification's tree says, as definitions; its names in code: the variables that they
//! stand for, and their faults.
#![tactic(auto)]

mod body_uses;
mod clauses;
mod instances;
mod least;
mod name_faults;
mod places;
mod predicates;
mod repeats;
mod scope;
mod scopes;
mod sorts;
mod uses;

pub use least::{fault, lesser};
pub use name_faults::name_fault;
pub use places::literal_place;
pub use predicates::{param_sort, params_of, pred_named, pred_place};
pub use scope::Scope;
pub use scopes::{clause_scope, goal_scope, universal_scope};
pub use uses::{NamedUse, Order};
