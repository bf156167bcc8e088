//! Want of memory, lists and texts that contracts see as lists, shared values, the counter of
//! steps, and the terms and literals of goals.
#![tactic(auto)]

mod copied;
mod fail;
mod laws;
mod list;
mod lit;
mod once;
mod roomy;
mod shared;
mod steps;
mod subst;
mod term;
mod without_repeats;

pub use copied::{Copied, Exact};
pub use fail::{Fail, NoMemory};
pub use laws::{
    applied_truth, decides_entailed, decides_integers, decides_regions, decides_satisfiable,
};
pub use list::{List, Text};
pub use lit::{Lit, SetTerm};
pub use roomy::Roomy;
pub use shared::Shared;
pub use steps::Steps;
pub use subst::{IntBind, SetBind, Subst};
pub use term::{Sort, Term, TooWide, Var};
pub use without_repeats::{each_once, few_differ};
