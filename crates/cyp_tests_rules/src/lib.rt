//! Tests of measures, of the rows of Open, Close and Call, and of the words.
#![tactic(auto)]

#[cfg(test)]
mod calls;
#[cfg(test)]
mod measures;
#[cfg(test)]
mod nodes;
#[cfg(test)]
mod rows;
#[cfg(test)]
mod words;
