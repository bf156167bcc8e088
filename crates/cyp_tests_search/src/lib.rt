//! Tests of trees, queues, memos, search and the cancel words.
#![tactic(auto)]

#[cfg(test)]
mod cancel;
#[cfg(test)]
mod memo;
#[cfg(test)]
mod queue;
#[cfg(test)]
mod search;
#[cfg(test)]
mod tree;
