ghost use Rattle.std.specs.Prelude.{IfOk};
ghost use Rattle.cyp_pure.specs.Parts.{IsParted};

use crate::sorts::compares_ints;
use cyp_term::{Copied, List, Lit, NoMemory};
use std::alloc::Global;

/// Literals of integers, and literals of sets.
#[derive(Drop)]
pub(crate) struct Parted {
    pub ints: List<Lit>,
    pub sets: List<Lit>,
}

/// Copies of the literals, parted by their kind.
pub(crate) fn parted_of(alloc: Global, lits: &[Lit]) -> Result<Parted, NoMemory>
    ensures { IfOk result (IsParted lits.now) }
{
    let mut ints = Vec::new(alloc);
    let mut sets = Vec::new(alloc);
    for lit in lits {
        let copy = lit.copy(alloc)?;
        if compares_ints(lit) {
            ints.push(copy)?;
        } else {
            sets.push(copy)?;
        }
    }
    Ok(Parted {
        ints: List::from_vec(ints),
        sets: List::from_vec(sets),
    })
}
