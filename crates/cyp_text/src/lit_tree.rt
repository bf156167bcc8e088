ghost use Rattle.std.specs.Prelude.{◌≡◌};
ghost use Rattle.cyp_text.specs.LitTrees.{lit_base, lit_nots, negated};

use crate::tree::{Comparison, IntTree, SetTree};
use cyp_term::List;
use std::marker::Model;

/// A literal without `not`: a comparison of terms, `=i` or `<=i` between unions, or a term `in` a
/// union.
#[derive(Debug, Drop)]
pub enum BaseTree {
    Comparing(IntTree, Comparison, IntTree),
    SameSets(SetTree, SetTree),
    SubSets(SetTree, SetTree),
    Inside(IntTree, SetTree),
}

/// A literal, which may be negated any number of times.
#[derive(Debug, Drop)]
pub struct LitTree {
    nots: List<u32>,
    base: BaseTree,
}

impl Model for LitTree {
    ghost use Rattle.cyp_text.specs.LitTrees.{LitTree, lit_code, negated};
    ghost use Rattle.cyp_text.specs.contracts.lit_tree.BaseTree as b;

    ghost Value = { LitTree };

    ghost coded = { lit_code b.the_row.coded };

    ghost view = { λ l. negated l.nots l.base };
}

impl LitTree {
    /// The literal, negated by a `not` at each of these places, the outermost first.
    pub fn new(nots: List<u32>, base: BaseTree) -> LitTree
        ensures { result ≡ negated nots base }
    {
        LitTree { nots, base }
    }

    /// The places of its `not`s, the outermost first.
    pub fn nots(&self) -> &List<u32>
        ensures { result.now ≡ lit_nots self.now }
    {
        &self.nots
    }

    /// What all of its `not`s negate.
    pub fn base(&self) -> &BaseTree
        ensures { result.now ≡ lit_base self.now }
    {
        &self.base
    }
}
