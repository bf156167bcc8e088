use crate::cause::Cause;

/// What a step answers: it was made, or the state had ended before, or the step faults.
#[derive(Clone, Copy, Debug, PartialEq, Eq)]
pub enum Stepped {
    Moved,
    Ended,
    Faulted(Cause),
}
