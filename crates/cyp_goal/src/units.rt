//! How many units a node has, counted up to the limit.

ghost use Rattle.std.specs.Prelude.{◌≡◌, ◌+◌, length, sum_by, ℕ};
ghost use Rattle.cyp_goal.specs.Counting.{capped};
ghost use Rattle.cyp_heap.specs.Limits.{arg_units, chunk_units, goal_units, link_units, lit_units, set_units};

use cyp_heap::{Arg, Chunk, Goal, Link};
use cyp_term::{Lit, SetBind, SetTerm};

/// The limit of a node's units.
pub(crate) const MOST: usize = 240;

/// Stands for each number past the limit.
const MORE: usize = MOST + 1;

/// The sum, or `MORE` where it is past the limit.
pub(crate) fn sum(a: usize, b: usize) -> usize
    ensures { result ≡ capped (a + b) }
{
    if a > MOST || b > MOST || a + b > MOST {
        MORE
    } else {
        a + b
    }
}

/// What has units.
pub(crate) trait Measured {
    ghost measure: { Self → ℕ };

    /// The number of units, or `MORE` where it is past the limit.
    fn units(&self) -> usize
        ensures { result ≡ capped (measure self.now) };
}

/// The units of all items.
pub(crate) fn all_units<T: Measured>(items: &[T]) -> usize
    ensures { result ≡ capped (sum_by T.measure items.now) }
{
    let mut units = 0;
    for item in items {
        units = sum(units, item.units());
    }
    units
}

impl Measured for SetTerm {
    ghost measure = { set_units };

    fn units(&self) -> usize {
        sum(self.vars().len(), self.elems().len())
    }
}

fn of_two_sets(a: &SetTerm, b: &SetTerm) -> usize
    ensures { result ≡ capped (1 + set_units a.now + set_units b.now) }
{
    sum(sum(1, a.units()), b.units())
}

impl Measured for Lit {
    ghost measure = { lit_units };

    fn units(&self) -> usize {
        match self {
            Lit::Eq(_, _) | Lit::Ne(_, _) | Lit::Le(_, _) | Lit::Lt(_, _) => 3,
            Lit::Member(_, b) | Lit::NotMember(_, b) => sum(2, b.units()),
            Lit::Same(a, b) | Lit::NotSame(a, b) | Lit::Sub(a, b) | Lit::NotSub(a, b) => {
                of_two_sets(a, b)
            }
        }
    }
}

impl Measured for Arg {
    ghost measure = { arg_units };

    fn units(&self) -> usize {
        match self {
            Arg::Int(_) => 1,
            Arg::Set(set) => set.units(),
        }
    }
}

impl Measured for Chunk {
    ghost measure = { chunk_units };

    fn units(&self) -> usize {
        match self {
            Chunk::Inst(inst) => sum(1, all_units(inst.args.as_slice())),
            Chunk::Block(_) => 2,
            Chunk::Cell(_) => 3,
        }
    }
}

impl Measured for SetBind {
    ghost measure = { λ b. 1 + set_units b.to };

    fn units(&self) -> usize {
        sum(1, self.to.units())
    }
}

impl Measured for Link {
    ghost measure = { link_units };

    fn units(&self) -> usize {
        let ints = self.map.ints.len();
        let sets = all_units(self.map.sets.as_slice());
        sum(sum(self.tuple.len(), sum(ints, ints)), sets)
    }
}

impl Measured for Goal {
    ghost measure = { goal_units };

    fn units(&self) -> usize {
        let pre = sum(self.program.len(), all_units(self.pre.chunks()));
        let chunks = sum(pre, all_units(self.post.chunks()));
        let pure_pre = sum(chunks, all_units(self.pure_pre.as_slice()));
        sum(pure_pre, all_units(self.pure_post.as_slice()))
    }
}
