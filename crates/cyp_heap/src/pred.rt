ghost use Rattle.std.specs.Prelude.{◌≡◌};
ghost use Rattle.cyp_heap.specs.PredsFormed.{IsFormedPreds};

use crate::chunk::Heap;
use cyp_term::{Copied, Exact, List, Lit, NoMemory, Sort, Text};
use std::alloc::Global;
use std::marker::Model;

/// A clause of an inductive predicate. Its parameters are numbered first, its own variables after
/// them; `ints` and `sets` count both.
#[derive(Debug, Drop, PartialEq, Eq, Hash)]
pub struct Clause {
    pub guard: Lit,
    pub lits: List<Lit>,
    pub heap: Heap,
    pub ints: u8,
    pub sets: u8,
}

/// An inductive predicate.
#[derive(Debug, Drop, PartialEq, Eq, Hash)]
pub struct Pred {
    pub name: Text,
    pub params: List<Sort>,
    pub clauses: List<Clause>,
}

/// The predicates of a specification.
#[derive(Debug, Drop, PartialEq, Eq, Hash)]
pub struct Preds {
    list: List<Pred>,
}

impl Model for Preds {
    ghost use Rattle.cyp_heap.specs.PredsFormed.{IsFormedPreds};
    ghost use Rattle.cyp_heap.specs.PredsValue.{PredsValue};

    ghost Value = { PredsValue };

    ghost view = { λ p. record { list = p.list } };

    ghost invariant = { λ p. IsFormedPreds (record { list = p.list }) };

    ghost inverse = { λ p. record { list = p.list } };
}

impl Preds {
    /// The predicates in the order of their places.
    pub fn new(list: List<Pred>) -> Preds
        requires { IsFormedPreds (record { list = list }) }
        ensures { result ≡ record { list = list } }
    {
        Preds { list }
    }

    /// The predicates, each at its place.
    pub fn list(&self) -> &[Pred]
        ensures list { result.now ≡ self.now.list }
        ensures formed { IsFormedPreds self.now }
    {
        self.list.as_slice()
    }
}

impl Copied for Clause {
    fn copy(&self, alloc: Global) -> Result<Clause, NoMemory> {
        Ok(Clause {
            guard: self.guard.copy(alloc)?,
            lits: self.lits.copy(alloc)?,
            heap: self.heap.copy(alloc)?,
            ints: self.ints,
            sets: self.sets,
        })
    }
}

impl Copied for Pred {
    fn copy(&self, alloc: Global) -> Result<Pred, NoMemory> {
        Ok(Pred {
            name: self.name.copy(alloc)?,
            params: self.params.copy(alloc)?,
            clauses: self.clauses.copy(alloc)?,
        })
    }
}

impl Copied for Preds {
    fn copy(&self, alloc: Global) -> Result<Preds, NoMemory> {
        Ok(Preds {
            list: self.list.copy(alloc)?,
        })
    }
}

impl Exact for Preds {
    ghost use Rattle.cyp_heap.specs.ExactNodes.{exact_preds};

    ghost exact = { exact_preds };
}
