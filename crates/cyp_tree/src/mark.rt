/// What is known of a node of a tree: it is solved, or has failed, or is open, which is neither.
#[derive(Clone, Copy, Debug, PartialEq, Eq)]
pub enum Mark {
    Undecided,
    Solved,
    Failed,
}
