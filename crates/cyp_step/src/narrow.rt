//! The offsets of all that is made of terms are at most 2^32 in size.

ghost use Rattle.std.specs.Prelude.{Bool, false, ◌||◌, ◌≡◌};
ghost use Rattle.std.specs.List.{list_any};
ghost use Rattle.cyp_heap.specs.Chunks.{wide_arg, wide_chunk};
ghost use Rattle.cyp_heap.specs.Goals.{wide_goal, wide_link, wide_node};
ghost use Rattle.cyp_term.specs.Terms.{wide_lit, wide_set, wide_term};

use cyp_heap::{Arg, Chunk, Goal, Link, Raw};
use cyp_term::{IntBind, Lit, SetBind, SetTerm, Term};

/// What is made of terms.
pub(crate) trait Narrow {
    ghost is_wide: { Self → Bool };

    /// Its offsets are in range.
    fn narrow(&self)
        ensures { is_wide self.now ≡ false };
}

fn narrow_all<T: Narrow>(items: &[T])
    ensures { list_any T.is_wide items.now ≡ false }
{
    for item in items {
        item.narrow();
    }
}

fn narrow_both<A: Narrow, B: Narrow>(a: &A, b: &B)
    ensures { (A.is_wide a.now || B.is_wide b.now) ≡ false }
{
    a.narrow();
    b.narrow();
}

impl Narrow for Term {
    ghost is_wide = { wide_term };

    fn narrow(&self) {
        let _offset = self.offset();
    }
}

impl Narrow for SetTerm {
    ghost is_wide = { wide_set };

    fn narrow(&self) {
        narrow_all(self.elems());
    }
}

impl Narrow for Lit {
    ghost is_wide = { wide_lit };

    fn narrow(&self) {
        match self {
            Lit::Eq(a, b) | Lit::Ne(a, b) | Lit::Le(a, b) | Lit::Lt(a, b) => narrow_both(a, b),
            Lit::Member(a, b) | Lit::NotMember(a, b) => narrow_both(a, b),
            Lit::Same(a, b) | Lit::NotSame(a, b) | Lit::Sub(a, b) | Lit::NotSub(a, b) => {
                narrow_both(a, b);
            }
        }
    }
}

impl Narrow for Arg {
    ghost is_wide = { wide_arg };

    fn narrow(&self) {
        match self {
            Arg::Int(term) => term.narrow(),
            Arg::Set(set) => set.narrow(),
        }
    }
}

impl Narrow for Chunk {
    ghost is_wide = { wide_chunk };

    fn narrow(&self) {
        match self {
            Chunk::Inst(inst) => narrow_all(inst.args.as_slice()),
            Chunk::Block(block) => block.at().narrow(),
            Chunk::Cell(cell) => narrow_both(&cell.at, &cell.content),
        }
    }
}

impl Narrow for IntBind {
    ghost is_wide = { λ b. wide_term b.to };

    fn narrow(&self) {
        self.to.narrow();
    }
}

impl Narrow for SetBind {
    ghost is_wide = { λ b. wide_set b.to };

    fn narrow(&self) {
        self.to.narrow();
    }
}

impl Narrow for Link {
    ghost is_wide = { wide_link };

    fn narrow(&self) {
        narrow_all(self.tuple.as_slice());
        narrow_all(self.map.ints.as_slice());
        narrow_all(self.map.sets.as_slice());
    }
}

impl Narrow for Goal {
    ghost is_wide = { wide_goal };

    fn narrow(&self) {
        narrow_all(self.pure_pre.as_slice());
        narrow_all(self.pre.chunks());
        narrow_all(self.pure_post.as_slice());
        narrow_all(self.post.chunks());
    }
}

impl Narrow for Raw {
    ghost is_wide = { wide_node };

    fn narrow(&self) {
        self.goal().narrow();
        narrow_all(self.links().as_slice());
    }
}
