//! What a search of goals finds: accepted derivations, whose programs are correct. Laws.
#![tactic(auto)]

mod laws;

pub use laws::{
    followed_derivations_are_accepted, found_derivations_are_accepted,
    found_derivations_are_correct,
};
