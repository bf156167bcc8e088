//! Search spaces: the moves and weights of nodes, derivations, and the settings and the report
//! of a search.
#![tactic(auto)]

mod moves;
mod report;
mod settings;
mod solved;
mod space;
mod stop;

pub use moves::{Alt, Moves, count_of_premises};
pub use report::{Report, Verdict};
pub use settings::Settings;
pub use solved::Solved;
pub use space::Space;
pub use stop::{Never, Stop, Stopped};
