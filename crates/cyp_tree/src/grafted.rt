use crate::mark::Mark;
use cyp_term::List;

/// The leaves that were live before a graft and aren't, by number, but for the one that it was at,
/// and what is known of the root then.
#[derive(Debug, Drop)]
pub struct Grafted {
    pub killed: List<u32>,
    pub mark: Mark,
}
