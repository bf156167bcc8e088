//! Set literals at given classes of their element terms, decided exactly over regions.
#![tactic(auto)]

mod dealing;
mod gathering;
mod masks;
mod names;
mod region_lists;
mod said;
mod sets;

pub use gathering::{terms_of, vars_of};
pub use sets::{regions, regions_with};
