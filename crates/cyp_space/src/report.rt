use crate::solved::Solved;

/// What a search has found out of its root.
#[derive(Debug, Drop)]
pub enum Verdict<R, N> {
    /// The root is solved, by this derivation.
    Found(Solved<R, N>),
    /// The root has no derivation.
    None,
    /// The search came to one of its limits before.
    Spent,
}

/// The verdict of a search with the expansions it took, the nodes of its tree, and the most
/// expansions above a node.
#[derive(Debug, Drop)]
pub struct Report<R, N> {
    pub verdict: Verdict<R, N>,
    pub expansions: u32,
    pub nodes: u32,
    pub depth: u32,
}
