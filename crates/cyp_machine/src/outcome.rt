use crate::cause::Cause;
use crate::store::Store;

/// How a run comes out: it has ended with this store after so many steps, the step of this number
/// faults, or the fuel is spent and it hasn't ended.
#[derive(Debug, Drop)]
pub enum Outcome {
    Ended(Store, u32),
    Faulted(Cause, u32),
    Spent,
}
