ghost use Rattle.std.specs.Prelude.{◌≡◌};

use cyp_heap::Heap;
use cyp_term::{List, Lit};

/// The next free number of each sort.
#[derive(Clone, Copy, Debug, PartialEq, Eq, Hash)]
pub struct Next {
    pub ints: u8,
    pub cards: u8,
    pub sets: u8,
}

/// One clause of a predicate at an instance, with the next free numbers behind it.
#[derive(Debug, Drop, PartialEq, Eq, Hash)]
pub struct Unfolded {
    pub guard: Lit,
    pub lits: List<Lit>,
    pub heap: Heap,
    pub next: Next,
}
