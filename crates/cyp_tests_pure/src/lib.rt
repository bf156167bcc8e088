//! Tests of terms, their constraints and sets, and the reading and writing of whole texts.
#![tactic(auto)]

#[cfg(test)]
mod bounds;
#[cfg(test)]
mod diff;
#[cfg(test)]
mod io;
#[cfg(test)]
mod lanes;
#[cfg(test)]
mod pure;
#[cfg(test)]
mod room;
#[cfg(test)]
mod sets;
#[cfg(test)]
mod term;
