ghost use Rattle.std.specs.Prelude.{◌≡◌};
ghost use Rattle.cyp_term.specs.declared.fail.Fail.TheVariants.{NoMemory as out_of_memory};

use std::alloc::{AllocError, AllocFailed};

/// Memory ran out.
#[derive(Clone, Copy, Debug, PartialEq, Eq, Hash, Drop)]
pub struct NoMemory;

/// A named error, or memory ran out.
#[derive(Clone, Copy, Debug, PartialEq, Eq, Hash, Drop)]
pub enum Fail<E> {
    Named(E),
    NoMemory,
}

impl From<AllocError> for NoMemory {
    fn from(_error: AllocError) -> NoMemory {
        NoMemory
    }
}

impl<T: Drop> From<AllocFailed<T>> for NoMemory {
    fn from(_error: AllocFailed<T>) -> NoMemory {
        NoMemory
    }
}

impl<E> From<AllocError> for Fail<E> {
    ghost from_gives = { λ _ e. e ≡ out_of_memory };

    fn from(_error: AllocError) -> Fail<E> {
        Fail::NoMemory
    }
}

impl<T: Drop, E> From<AllocFailed<T>> for Fail<E> {
    ghost from_gives = { λ _ e. e ≡ out_of_memory };

    fn from(_error: AllocFailed<T>) -> Fail<E> {
        Fail::NoMemory
    }
}

impl<E> From<NoMemory> for Fail<E> {
    ghost from_gives = { λ _ e. e ≡ out_of_memory };

    fn from(_error: NoMemory) -> Fail<E> {
        Fail::NoMemory
    }
}
