ghost use Rattle.std.specs.Prelude.{◌≡◌};
ghost use Rattle.cyp_names.specs.Places.{base_place};
ghost use Rattle.cyp_names.specs.NameFaults.{int_place, lit_place, part_place, set_place};

use cyp_text::{BaseTree, IntTree, LitTree, PartTree, SetTree};

/// Where an integer term begins.
pub(crate) fn int_place(term: &IntTree) -> u32
    ensures { result ≡ int_place term.now }
{
    match term {
        IntTree::Num(place, _) | IntTree::MinusNum(place, _) | IntTree::NumPlus(place, _, _) => {
            *place
        }
        IntTree::Named(name) | IntTree::NamePlus(name, _) | IntTree::NameMinus(name, _) => {
            name.place
        }
    }
}

/// Where a union begins.
fn set_place(set: &SetTree) -> u32
    ensures { result ≡ set_place set.now }
{
    match &set.first {
        PartTree::PartName(name) => name.place,
        PartTree::Braces(place, _) => *place,
    }
}

/// Where a literal without its negations begins.
fn base_place(base: &BaseTree) -> u32
    ensures { result ≡ base_place base.now }
{
    match base {
        BaseTree::Comparing(term, _, _) | BaseTree::Inside(term, _) => int_place(term),
        BaseTree::SameSets(set, _) | BaseTree::SubSets(set, _) => set_place(set),
    }
}

/// Where a literal begins.
pub fn literal_place(literal: &LitTree) -> u32
    ensures { result ≡ lit_place literal.now }
{
    match literal.nots().as_slice() {
        [place, ..] => *place,
        [] => base_place(literal.base()),
    }
}
