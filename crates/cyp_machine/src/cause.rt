/// Why the next step of a run faults: a cell that isn't there is read or written, a block that isn't
/// wholly there is freed, or `error` is reached.
#[derive(Clone, Copy, Debug, PartialEq, Eq)]
pub enum Cause {
    ReadMissing,
    WriteMissing,
    FreeMissing,
    ErrorReached,
}
