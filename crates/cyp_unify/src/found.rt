ghost use Rattle.std.specs.Prelude.{◌≡◌};

use cyp_term::{List, Lit, Subst, Term};

/// A chunk of the precondition that the focus may be framed with, and the equalities that this
/// needs. The focus is the first chunk of the postcondition.
#[derive(Debug, Drop, PartialEq, Eq, Hash)]
pub struct Pair {
    pub pre: u8,
    pub lits: List<Lit>,
}

/// A store into a cell that a call needs before it.
#[derive(Clone, Copy, Debug, PartialEq, Eq, Hash)]
pub struct Mend {
    pub cell: u8,
    pub value: Term,
}

/// How a companion's precondition lies in a node's: the present chunk of each of its chunks, the
/// bindings of its variables, what must be shown, and what must be stored.
#[derive(Debug, Drop, PartialEq, Eq, Hash)]
pub struct Match {
    pub pairs: List<u8>,
    pub by: Subst,
    pub need: List<Lit>,
    pub mends: List<Mend>,
}
