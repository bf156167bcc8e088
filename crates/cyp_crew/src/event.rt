/// A step of a crew that shares one search.
#[derive(Clone, Copy, Debug, PartialEq, Eq)]
pub enum Event {
    /// This worker takes the next leaf to expand, under this serial.
    Claim(u32, u64),
    /// This worker hands in the moves of the leaf that it took under this serial.
    Publish(u32, u64),
    /// This worker gives back the leaf that it took under this serial.
    Abandon(u32, u64),
    /// The leaf that was taken under this serial needs no expansion any more.
    Cancel(u64),
    /// The next leaf is expanded.
    Commit,
}
