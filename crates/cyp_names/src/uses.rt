ghost use Rattle.std.specs.Prelude.{◌≡◌, ◌++◌, OnOk, cond, flat_map};
ghost use Rattle.cyp_text.specs.declared.tree.PartTree.TheVariants.{Braces, PartName};
ghost use Rattle.cyp_names.specs.Orders.{base_in, kind_uses, lit_in, parts_in, takes_part, turns, union_parts};
ghost use Rattle.cyp_names.specs.Bodies.{is_name, is_turned};
ghost use Rattle.cyp_names.specs.Uses.{int_uses, part_uses, set_parts, use_of};

use cyp_lex::Ident;
use cyp_term::{List, NoMemory, Sort};
use cyp_text::{BaseTree, Comparison, IntTree, LitTree, PartTree, SetTree};
use std::marker::Model;

/// A name where it stands for a variable of a sort.
#[derive(Drop)]
pub struct NamedUse<'a> {
    name: &'a Ident,
    sort: Sort,
}

impl<'a> Model for NamedUse<'a> {
    ghost use Rattle.cyp_names.specs.Uses.{Use};

    ghost Value = { Use };

    ghost view = { λ u. record { name = u.name.now; sort = u.sort } };
}

impl<'a> NamedUse<'a> {
    /// The name where it stands for a variable of this sort.
    pub fn new(name: &'a Ident, sort: Sort) -> NamedUse<'a>
        ensures { result ≡ use_of sort name.now }
    {
        NamedUse { name, sort }
    }

    /// The name.
    pub fn name(&self) -> &'a Ident
        ensures { result.now ≡ self.now.name }
    {
        self.name
    }

    /// The sort of the place where the name stands.
    pub fn sort(&self) -> Sort
        ensures { result ≡ self.now.sort }
    {
        self.sort
    }

    /// The same use.
    pub fn again(&self) -> NamedUse<'a>
        ensures { result ≡ self.now }
    {
        NamedUse {
            name: self.name,
            sort: self.sort,
        }
    }
}

/// The two orders in which names are walked over: that of the text, and that in which literals and
/// chunks are kept.
#[derive(Clone, Copy, Debug, PartialEq, Eq)]
pub enum Order {
    OfText,
    AsKept,
}

/// Which parts of a union are walked over.
#[derive(Clone, Copy, Debug, PartialEq, Eq)]
pub(crate) enum PartKinds {
    AllParts,
    NameParts,
    BraceParts,
}

/// A union as its parts: that of a set, that of an argument which begins with braces, and that of
/// an argument which begins with a name.
#[derive(Clone, Copy)]
pub(crate) enum Union<'a> {
    OfSet(&'a SetTree),
    OfBraces(u32, &'a List<IntTree>, &'a List<PartTree>),
    OfName(&'a Ident, &'a PartTree, &'a List<PartTree>),
}

impl PartKinds {
    /// Whether a part is of the kind that is a name, or isn't.
    fn takes(self, part: &PartTree) -> bool
        ensures { result ≡ takes_part self part.now }
    {
        match self {
            PartKinds::AllParts => true,
            PartKinds::NameParts => is_name(part),
            PartKinds::BraceParts => !is_name(part),
        }
    }
}

fn is_name(part: &PartTree) -> bool
    ensures { result ≡ is_name part.now }
{
    match part {
        PartTree::PartName(_) => true,
        PartTree::Braces(_, _) => false,
    }
}

/// Adds the name in a term, if it has one.
pub(crate) fn add_int<'a>(uses: &mut Vec<NamedUse<'a>>, term: &'a IntTree) -> Result<(), NoMemory>
    ensures { OnOk result (uses.new.items ≡ uses.old.items ++ int_uses term.now) }
{
    match term {
        IntTree::Num(_, _) | IntTree::MinusNum(_, _) => {}
        IntTree::Named(name)
        | IntTree::NamePlus(name, _)
        | IntTree::NameMinus(name, _)
        | IntTree::NumPlus(_, _, name) => uses.push(NamedUse::new(name, Sort::Int))?,
    }
    Ok(())
}

fn add_ints<'a>(uses: &mut Vec<NamedUse<'a>>, terms: &'a [IntTree]) -> Result<(), NoMemory>
    ensures { OnOk result (uses.new.items ≡ uses.old.items ++ flat_map int_uses terms.now) }
{
    for term in terms {
        add_int(uses, term)?;
    }
    Ok(())
}

fn add_part<'a>(uses: &mut Vec<NamedUse<'a>>, part: &'a PartTree) -> Result<(), NoMemory>
    ensures { OnOk result (uses.new.items ≡ uses.old.items ++ part_uses part.now) }
{
    match part {
        PartTree::PartName(name) => uses.push(NamedUse::new(name, Sort::Set))?,
        PartTree::Braces(_, terms) => add_ints(uses, terms.as_slice())?,
    }
    Ok(())
}

fn add_part_of_kind<'a>(
    uses: &mut Vec<NamedUse<'a>>,
    kinds: PartKinds,
    part: &'a PartTree,
) -> Result<(), NoMemory>
    ensures { OnOk result (uses.new.items ≡ uses.old.items ++ kind_uses kinds part.now) }
{
    if kinds.takes(part) {
        add_part(uses, part)?;
    }
    Ok(())
}

fn add_parts_of_kind<'a>(
    uses: &mut Vec<NamedUse<'a>>,
    kinds: PartKinds,
    parts: &'a [PartTree],
) -> Result<(), NoMemory>
    ensures { OnOk result (uses.new.items ≡ uses.old.items ++ flat_map (kind_uses kinds) parts.now) }
{
    for part in parts {
        add_part_of_kind(uses, kinds, part)?;
    }
    Ok(())
}

/// Adds the names in terms in braces, unless only names of a union are walked over.
fn add_braces_of_kind<'a>(
    uses: &mut Vec<NamedUse<'a>>,
    kinds: PartKinds,
    terms: &'a List<IntTree>,
) -> Result<(), NoMemory>
    ensures { OnOk result (uses.new.items ≡ uses.old.items ++ kind_uses kinds (Braces 0 terms.now)) }
{
    match kinds {
        PartKinds::AllParts | PartKinds::BraceParts => add_ints(uses, terms.as_slice()),
        PartKinds::NameParts => Ok(()),
    }
}

/// Adds a name of a union, unless only braces are walked over.
fn add_name_of_kind<'a>(
    uses: &mut Vec<NamedUse<'a>>,
    kinds: PartKinds,
    name: &'a Ident,
) -> Result<(), NoMemory>
    ensures { OnOk result (uses.new.items ≡ uses.old.items ++ kind_uses kinds (PartName name.now)) }
{
    match kinds {
        PartKinds::AllParts | PartKinds::NameParts => uses.push(NamedUse::new(name, Sort::Set))?,
        PartKinds::BraceParts => {}
    }
    Ok(())
}

/// Adds the names in those parts of a union that are of the kind.
fn add_union_of_kind<'a>(
    uses: &mut Vec<NamedUse<'a>>,
    kinds: PartKinds,
    union: &Union<'a>,
) -> Result<(), NoMemory>
    ensures { OnOk result (uses.new.items ≡ uses.old.items ++ flat_map (kind_uses kinds) (union_parts union.now)) }
{
    match *union {
        Union::OfSet(set) => {
            add_part_of_kind(uses, kinds, &set.first)?;
            add_parts_of_kind(uses, kinds, set.others.as_slice())
        }
        Union::OfBraces(_, terms, parts) => {
            add_braces_of_kind(uses, kinds, terms)?;
            add_parts_of_kind(uses, kinds, parts.as_slice())
        }
        Union::OfName(name, second, parts) => {
            add_name_of_kind(uses, kinds, name)?;
            add_part_of_kind(uses, kinds, second)?;
            add_parts_of_kind(uses, kinds, parts.as_slice())
        }
    }
}

/// Adds the names in a union.
pub(crate) fn add_union<'a>(
    uses: &mut Vec<NamedUse<'a>>,
    order: Order,
    union: &Union<'a>,
) -> Result<(), NoMemory>
    ensures { OnOk result (uses.new.items ≡ uses.old.items ++ parts_in order (union_parts union.now)) }
{
    match order {
        Order::OfText => add_union_of_kind(uses, PartKinds::AllParts, union),
        Order::AsKept => {
            add_union_of_kind(uses, PartKinds::NameParts, union)?;
            add_union_of_kind(uses, PartKinds::BraceParts, union)
        }
    }
}

fn add_set<'a>(uses: &mut Vec<NamedUse<'a>>, order: Order, set: &'a SetTree) -> Result<(), NoMemory>
    ensures { OnOk result (uses.new.items ≡ uses.old.items ++ parts_in order (set_parts set.now)) }
{
    add_union(uses, order, &Union::OfSet(set))
}

impl Order {
    /// Whether the sides of a comparison change places, where it stands under `not` and where it
    /// doesn't.
    fn turns(self, is_negated: bool, comparison: Comparison) -> bool
        ensures { result ≡ turns self is_negated comparison }
    {
        match self {
            Order::OfText => false,
            Order::AsKept => is_turned(is_negated, comparison),
        }
    }
}

/// Whether a comparison is kept with its sides in the other order.
fn is_turned(is_negated: bool, comparison: Comparison) -> bool
    ensures { result ≡ is_turned is_negated comparison }
{
    match comparison {
        Comparison::IsAtMost | Comparison::IsBelow => is_negated,
        Comparison::IsAtLeast | Comparison::IsAbove => !is_negated,
        Comparison::IsEqual | Comparison::IsUnequal => false,
    }
}

fn add_ints_turned<'a>(
    uses: &mut Vec<NamedUse<'a>>,
    are_turned: bool,
    left: &'a IntTree,
    right: &'a IntTree,
) -> Result<(), NoMemory>
    ensures { OnOk result (uses.new.items ≡ uses.old.items ++ cond are_turned (int_uses right.now ++ int_uses left.now) (int_uses left.now ++ int_uses right.now)) }
{
    if are_turned {
        add_int(uses, right)?;
        add_int(uses, left)
    } else {
        add_int(uses, left)?;
        add_int(uses, right)
    }
}

fn add_sets<'a>(
    uses: &mut Vec<NamedUse<'a>>,
    order: Order,
    left: &'a SetTree,
    right: &'a SetTree,
) -> Result<(), NoMemory>
    ensures { OnOk result (uses.new.items ≡ uses.old.items ++ (parts_in order (set_parts left.now) ++ parts_in order (set_parts right.now))) }
{
    add_set(uses, order, left)?;
    add_set(uses, order, right)
}

/// Adds the names in a literal without its negations.
fn add_base<'a>(
    uses: &mut Vec<NamedUse<'a>>,
    order: Order,
    is_negated: bool,
    base: &'a BaseTree,
) -> Result<(), NoMemory>
    ensures { OnOk result (uses.new.items ≡ uses.old.items ++ base_in order is_negated base.now) }
{
    match base {
        BaseTree::Comparing(left, comparison, right) => {
            add_ints_turned(uses, order.turns(is_negated, *comparison), left, right)
        }
        BaseTree::SameSets(left, right) | BaseTree::SubSets(left, right) => {
            add_sets(uses, order, left, right)
        }
        BaseTree::Inside(term, set) => {
            add_int(uses, term)?;
            add_set(uses, order, set)
        }
    }
}

/// Adds the names in a literal.
pub(crate) fn add_literal<'a>(
    uses: &mut Vec<NamedUse<'a>>,
    order: Order,
    literal: &'a LitTree,
) -> Result<(), NoMemory>
    ensures { OnOk result (uses.new.items ≡ uses.old.items ++ lit_in order literal.now) }
{
    let is_negated = literal.nots().len() % 2 == 1;
    add_base(uses, order, is_negated, literal.base())
}
