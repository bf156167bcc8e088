//! Entailment over integers and finite sets together, decided exactly.
#![tactic(auto)]

mod dealing;
mod entail;
mod limits;
mod parted;
mod seen;
mod sorts;

pub use entail::{entails, satisfiable};
pub use limits::fits;
