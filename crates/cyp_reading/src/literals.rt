ghost use Rattle.std.specs.Prelude.{IfOk, OnOk, length, map, ◌++◌, ◌≡◌, ◌≤◌};
ghost use Rattle.std.specs.List.{All};
ghost use Rattle.cyp_reading.specs.Items.{items_lits};
ghost use Rattle.cyp_reading.specs.Readable.{BaseReadable, ItemReadable, LitReadable, PureReadable};
ghost use Rattle.cyp_names.specs.Bodies.{item_lits, pure_lits};
ghost use Rattle.cyp_text.specs.LitTrees.{plain_lit};
ghost use Rattle.cyp_names.specs.ReadTerms.{compared, read_lit};

use crate::terms::read_int;
use crate::unions::read_set;
use cyp_names::Scope;
use cyp_term::{List, Lit, NoMemory, Term};
use cyp_text::{BaseTree, Comparison, Conjunction, ItemTree, LitTree, PureTree};
use std::alloc::Global;

/// `a > b` is `b < a`, and `a >= b` is `b <= a`.
fn compared(comparison: Comparison, left: Term, right: Term) -> Lit
    ensures { result ≡ compared comparison left right }
{
    match comparison {
        Comparison::IsEqual => Lit::Eq(left, right),
        Comparison::IsUnequal => Lit::Ne(left, right),
        Comparison::IsAtMost => Lit::Le(left, right),
        Comparison::IsBelow => Lit::Lt(left, right),
        Comparison::IsAtLeast => Lit::Le(right, left),
        Comparison::IsAbove => Lit::Lt(right, left),
    }
}

/// The literal that a tree without `not` says.
fn read_base(alloc: Global, scope: &Scope<'_>, tree: &BaseTree) -> Result<Lit, NoMemory>
    requires few { length scope.now ≤ 255 }
    requires readable { BaseReadable scope.now tree.now }
    ensures { IfOk result (λ l. l ≡ read_lit scope.now (plain_lit tree.now)) }
{
    Ok(match tree {
        BaseTree::Comparing(left, comparison, right) => {
            compared(*comparison, read_int(scope, left), read_int(scope, right))
        }
        BaseTree::SameSets(left, right) => {
            Lit::Same(
                read_set(alloc, scope, left)?,
                read_set(alloc, scope, right)?,
            )
        }
        BaseTree::SubSets(left, right) => {
            Lit::Sub(
                read_set(alloc, scope, left)?,
                read_set(alloc, scope, right)?,
            )
        }
        BaseTree::Inside(term, set) => {
            Lit::Member(read_int(scope, term), read_set(alloc, scope, set)?)
        }
    })
}

/// The literal that the tree says. Each `not` negates.
pub fn read_lit(alloc: Global, scope: &Scope<'_>, tree: &LitTree) -> Result<Lit, NoMemory>
    requires few { length scope.now ≤ 255 }
    requires readable { LitReadable scope.now tree.now }
    ensures { IfOk result (λ l. l ≡ read_lit scope.now tree.now) }
{
    let base = read_base(alloc, scope, tree.base())?;
    if tree.nots().len() % 2 == 1 {
        return Ok(base.negated());
    }
    Ok(base)
}

/// Adds the literal of an item; `true` has none.
fn add_item(
    alloc: Global,
    lits: &mut Vec<Lit>,
    scope: &Scope<'_>,
    item: &ItemTree,
) -> Result<(), NoMemory>
    requires few { length scope.now ≤ 255 }
    requires readable { ItemReadable scope.now item.now }
    ensures { OnOk result (lits.new.items ≡ lits.old.items ++ map (read_lit scope.now) (item_lits item.now)) }
{
    match item {
        ItemTree::TrueItem => Ok(()),
        ItemTree::LitItem(lit) => {
            lits.push(read_lit(alloc, scope, lit)?)?;
            Ok(())
        }
    }
}

/// Adds the literals of items behind conjunctions.
fn add_items(
    alloc: Global,
    lits: &mut Vec<Lit>,
    scope: &Scope<'_>,
    items: &[(Conjunction, ItemTree)],
) -> Result<(), NoMemory>
    requires few { length scope.now ≤ 255 }
    requires readable { All (λ (p : Conjunction × ItemTree). ItemReadable scope.now p.1) items.now }
    ensures { OnOk result (lits.new.items ≡ lits.old.items ++ map (read_lit scope.now) (items_lits items.now)) }
{
    for (_, item) in items {
        add_item(alloc, lits, scope, item)?;
    }
    Ok(())
}

/// The literals of a pure part in their order.
pub fn read_lits(alloc: Global, scope: &Scope<'_>, tree: &PureTree) -> Result<List<Lit>, NoMemory>
    requires few { length scope.now ≤ 255 }
    requires readable { PureReadable scope.now tree.now }
    ensures { IfOk result (λ ls. ls ≡ map (read_lit scope.now) (pure_lits tree.now)) }
{
    let mut lits = Vec::new(alloc);
    if let PureTree::Items(first, others) = tree {
        add_item(alloc, &mut lits, scope, first.get())?;
        add_items(alloc, &mut lits, scope, others.as_slice())?;
    }
    Ok(List::from_vec(lits))
}
