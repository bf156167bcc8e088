//! The clauses of a predicate at an instance.

ghost use Rattle.std.specs.Prelude.{IfOk, IsTrue, length, map, slice_get, suc, ◌+◌, ◌<◌, ◌≡◌, ◌≤◌};
ghost use Rattle.std.specs.List.{list_all, list_any};
ghost use Rattle.cyp_heap.specs.Chunks.{insts};
ghost use Rattle.cyp_pred.specs.Parts.{apply_clause, entry, first_number, is_ready, next_after, wide_clause};
ghost use Rattle.cyp_pred.specs.Unfold.{cards_used, clauses_of, own_ints, own_sets, unfold_clause, unfold_inst, wide_unfolded, with_tags};
ghost use Rattle.cyp_pred.specs.Unfoldable.{CanUnfold, card_fits, wide_entry};
ghost use Rattle.cyp_term.specs.Answers.{GivesUnless};
ghost use Rattle.cyp_term.specs.Terms.{apply_lit, wide_lit};

use crate::bindings::{clause_subst, own_ints, own_sets};
use crate::subinstances::{cards_used, count_insts, first_number, with_below, with_tags};
use crate::unfolded::{Next, Unfolded};
use cyp_heap::{Clause, Heap, InstOf, Preds};
use cyp_term::{Fail, List, Lit, NoMemory, Subst, TooWide};
use std::alloc::Global;

fn apply_lits(alloc: Global, lits: &[Lit], by: &Subst) -> Result<List<Lit>, Fail<TooWide>>
    ensures { GivesUnless (list_any wide_lit (map (apply_lit by.now) lits.now)) (map (apply_lit by.now) lits.now) result }
{
    let mut applied = Vec::with_capacity(alloc, lits.len())?;
    for lit in lits {
        applied.push(lit.apply(alloc, by)?)?;
    }
    Ok(List::from_vec(applied))
}

/// The clause with each variable replaced by its image.
fn apply_clause(alloc: Global, clause: &Clause, by: &Subst) -> Result<Clause, Fail<TooWide>>
    ensures { GivesUnless (wide_clause (apply_clause by.now clause.now)) (apply_clause by.now clause.now) result }
{
    let guard = clause.guard.apply(alloc, by)?;
    let lits = apply_lits(alloc, clause.lits.as_slice(), by)?;
    let heap = clause.heap.apply(alloc, by)?;
    Ok(Clause {
        guard,
        lits,
        heap,
        ints: clause.ints,
        sets: clause.sets,
    })
}

/// The next free numbers behind the clause's new variables.
fn next_after(inst: &InstOf, next: Next, clause: &Clause, count: u8) -> Next
    requires args { length inst.now.args ≤ 8 }
    requires ints { next.ints + own_ints inst.now.args clause.now < 256 }
    requires cards { next.cards + cards_used inst.now.card count < 256 }
    requires sets { next.sets + own_sets inst.now.args clause.now < 256 }
    ensures { result ≡ next_after inst.now next clause.now count }
{
    let args = inst.args.as_slice();
    Next {
        ints: next.ints + own_ints(args, clause),
        cards: next.cards + cards_used(inst.card, count),
        sets: next.sets + own_sets(args, clause),
    }
}

/// The chunks as the heap of an unfolded clause.
fn tagged_heap(alloc: Global, inst: &InstOf, next: Next, heap: Heap) -> Result<Heap, NoMemory>
    requires tag { inst.now.tag < 255 }
    requires fits { first_number inst.now.card next.cards + length (insts heap.chunks) < 256 }
    ensures { IfOk result (λ h. h ≡ record { chunks = with_tags inst.now.card (suc inst.now.tag) next.cards heap.chunks }) }
{
    let first = first_number(inst.card, next.cards);
    let chunks = with_tags(alloc, inst.card, inst.tag + 1, first, heap.into_chunks())?;
    Ok(Heap::new(chunks))
}

/// The clause's entry, once its parameters are replaced.
fn entry(alloc: Global, inst: &InstOf, next: Next, applied: Clause) -> Result<Unfolded, NoMemory>
    requires args { length inst.now.args ≤ 8 }
    requires chunks { length applied.heap.chunks ≤ 8 }
    requires card { IsTrue (card_fits inst.now.card) }
    requires tag { inst.now.tag < 255 }
    requires ints { next.ints + own_ints inst.now.args applied < 256 }
    requires cards { next.cards + cards_used inst.now.card (length (insts applied.heap.chunks)) < 256 }
    requires sets { next.sets + own_sets inst.now.args applied < 256 }
    ensures { IfOk result (λ u. u ≡ entry inst.now next applied) }
{
    let count = count_insts(applied.heap.chunks());
    let next_free = next_after(inst, next, &applied, count);
    let Clause {
        guard,
        lits,
        heap,
        ..
    } = applied;
    let lits = with_below(lits, inst.card, next.cards, count)?;
    let heap = tagged_heap(alloc, inst, next, heap)?;
    Ok(Unfolded {
        guard,
        lits,
        heap,
        next: next_free,
    })
}

/// The clause at the instance.
fn unfold_clause(
    alloc: Global,
    inst: &InstOf,
    next: Next,
    clause: &Clause,
) -> Result<Unfolded, Fail<TooWide>>
    requires args { length inst.now.args ≤ 8 }
    requires card { IsTrue (card_fits inst.now.card) }
    requires tag { inst.now.tag < 255 }
    requires ready { IsTrue (is_ready inst.now next clause.now) }
    ensures { GivesUnless (wide_unfolded (unfold_clause inst.now next clause.now)) (unfold_clause inst.now next clause.now) result }
{
    let by = clause_subst(alloc, inst.args.as_slice(), clause, next)?;
    let applied = apply_clause(alloc, clause, &by)?;
    Ok(entry(alloc, inst, next, applied)?)
}

/// The clauses at the instance.
fn unfold_clauses(
    alloc: Global,
    inst: &InstOf,
    next: Next,
    clauses: &[Clause],
) -> Result<List<Unfolded>, Fail<TooWide>>
    requires args { length inst.now.args ≤ 8 }
    requires card { IsTrue (card_fits inst.now.card) }
    requires tag { inst.now.tag < 255 }
    requires ready { IsTrue (list_all (is_ready inst.now next) clauses.now) }
    ensures { GivesUnless (list_any wide_unfolded (map (unfold_clause inst.now next) clauses.now)) (map (unfold_clause inst.now next) clauses.now) result }
{
    let mut entries = Vec::with_capacity(alloc, clauses.len())?;
    for clause in clauses {
        entries.push(unfold_clause(alloc, inst, next, clause)?)?;
    }
    Ok(List::from_vec(entries))
}

/// The clauses of the instance's predicate.
fn clauses_of<'a>(preds: &'a Preds, inst: &InstOf, next: Next) -> &'a [Clause]
    requires { CanUnfold preds.now inst.now next }
    ensures clauses { result.now ≡ clauses_of (slice_get preds.now.list inst.now.pred) }
    ensures args { length inst.now.args ≤ 8 }
    ensures ready { IsTrue (list_all (is_ready inst.now next) result.now) }
{
    preds.list()[inst.pred as usize].clauses.as_slice()
}

/// One entry for each clause of the instance's predicate, in order. Each numbers its own variables
/// from `next` on. It is `TooWide` exactly where an offset of an entry passes 2^32 in size.
pub fn unfold(
    alloc: Global,
    preds: &Preds,
    inst: &InstOf,
    next: Next,
) -> Result<List<Unfolded>, Fail<TooWide>>
    requires { CanUnfold preds.now inst.now next }
    ensures { GivesUnless (list_any wide_unfolded (unfold_inst preds.now inst.now next)) (unfold_inst preds.now inst.now next) result }
{
    unfold_clauses(alloc, inst, next, clauses_of(preds, inst, next))
}

/// The entry for the clause at this place alone, or `None` where the predicate has no such clause. It
/// is `TooWide` exactly where an offset of that entry passes 2^32 in size.
pub fn unfold_one(
    alloc: Global,
    preds: &Preds,
    inst: &InstOf,
    next: Next,
    clause: u8,
) -> Result<Option<Unfolded>, Fail<TooWide>>
    requires { CanUnfold preds.now inst.now next }
    ensures { GivesUnless (wide_entry (slice_get (unfold_inst preds.now inst.now next) clause)) (slice_get (unfold_inst preds.now inst.now next) clause) result }
{
    let clauses = clauses_of(preds, inst, next);
    let place = clause as usize;
    if place >= clauses.len() {
        return Ok(None);
    }
    Ok(Some(unfold_clause(alloc, inst, next, &clauses[place])?))
}
