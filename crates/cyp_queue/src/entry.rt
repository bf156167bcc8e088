/// A leaf with its priority.
#[derive(Clone, Copy, Debug, PartialEq, Eq, PartialOrd, Ord)]
pub struct Entry {
    pub priority: u32,
    pub leaf: u32,
}
