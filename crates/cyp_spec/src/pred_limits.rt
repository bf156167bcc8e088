ghost use Rattle.std.specs.Prelude.{[], IfOk, IsTrue, cond, slice_get, true, ◌≡◌};
ghost use Rattle.std.specs.List.{All, flat_map, list_all};
ghost use Rattle.cyp_heap.specs.PredsFormed.{is_clause_within};
ghost use Rattle.cyp_lex.specs.declared.fault.FaultKind.TheVariants.{GuardsOverlap};
ghost use Rattle.cyp_spec.specs.InOrder.{is_name_first};
ghost use Rattle.cyp_spec.specs.LimitParts.{preds_part};
ghost use Rattle.cyp_spec.specs.Small.{ClauseSmall, PredSmall};
ghost use Rattle.cyp_term.specs.Integers.{is_int_lit};
ghost use Rattle.cyp_names.specs.PredFaults.{extra_pred_fault, guard_of, is_pred_within, overlap_faults, overlaps, pred_limit_faults, size_faults, unproductive_fault};
ghost use Rattle.cyp_names.specs.NameFaults.{clause_faults, clauses, fault_at, lit_place, param_names, pred_faults, repeats};
ghost use Rattle.cyp_names.specs.FaultOrder.{least_fault};
ghost use Rattle.cyp_names.specs.Specifications.{read_clause, read_pred};
ghost use Rattle.cyp_text.specs.declared.tree.ClauseTree.{ClauseTree as TheClause};

use crate::block_sizes::{owner_fault, sizes_fault};
use crate::clause_limits::is_clause_within;
use crate::guards::overlaps;
use cyp_lex::{Fault, FaultKind};
use cyp_names::{clause_scope, fault, lesser, literal_place};
use cyp_reading::read_lit;
use cyp_term::{Lit, NoMemory};
use cyp_text::{ClauseTree, ParamTree, PredTree};
use std::alloc::Global;

/// The limit of predicates.
const MOST_PREDS: usize = 16;

/// The limit of parameters of a predicate.
const MOST_PARAMS: usize = 8;

/// The limit of clauses behind the first.
const MOST_OTHERS: usize = 7;

/// Whether the clauses of a predicate with these parameters pass no limit.
fn are_clauses_within(
    alloc: Global,
    preds: &[PredTree],
    params: &[ParamTree],
    clauses: &[ClauseTree],
) -> Result<bool, NoMemory>
    requires once { repeats [] (param_names params.now) ≡ [] }
    requires right { flat_map (clause_faults preds.now params.now) clauses.now ≡ [] }
    requires small { All ClauseSmall clauses.now }
    ensures { IfOk result (λ b. b ≡ list_all (λ (c : TheClause). is_clause_within (read_clause preds.now params.now c)) clauses.now) }
{
    for clause in clauses {
        if !is_clause_within(alloc, preds, params, clause)? {
            return Ok(false);
        }
    }
    Ok(true)
}

/// Whether a predicate passes no limit.
fn is_pred_within(alloc: Global, preds: &[PredTree], pred: &PredTree) -> Result<bool, NoMemory>
    requires right { pred_faults preds.now pred.now ≡ [] }
    requires small { PredSmall pred.now }
    ensures { IfOk result (λ b. b ≡ is_pred_within (read_pred preds.now pred.now)) }
{
    let params = pred.params.as_slice();
    let others = pred.others.as_slice();
    if params.len() > MOST_PARAMS {
        return Ok(false);
    }
    if others.len() > MOST_OTHERS {
        return Ok(false);
    }
    if !is_clause_within(alloc, preds, params, &pred.first)? {
        return Ok(false);
    }
    let others_within = are_clauses_within(alloc, preds, params, others)?;
    Ok(others_within)
}

/// The guard of a clause that passes no limit.
fn guard_of(
    alloc: Global,
    preds: &[PredTree],
    params: &[ParamTree],
    clause: &ClauseTree,
) -> Result<Lit, NoMemory>
    requires once { repeats [] (param_names params.now) ≡ [] }
    requires right { clause_faults preds.now params.now clause.now ≡ [] }
    requires small { ClauseSmall clause.now }
    requires within { is_clause_within (read_clause preds.now params.now clause.now) ≡ true }
    ensures guard { IfOk result (λ g. g ≡ guard_of preds.now params.now clause.now) }
    ensures ints { IfOk result (λ g. IsTrue (is_int_lit g)) }
{
    let scope = clause_scope(alloc, preds, params, clause)?;
    let guard = read_lit(alloc, &scope, &clause.guard)?;
    Ok(guard)
}

/// A guard that can hold beside an earlier one.
fn guard_fault(
    alloc: Global,
    seen: &[Lit],
    guard: &Lit,
    clause: &ClauseTree,
) -> Result<Option<Fault>, NoMemory>
    requires seen { All (λ g. IsTrue (is_int_lit g)) seen.now }
    requires guard { IsTrue (is_int_lit guard.now) }
    ensures { IfOk result (λ o. o ≡ least_fault (cond (overlaps seen.now guard.now) (fault_at GuardsOverlap (lit_place clause.now.guard)) [])) }
{
    if overlaps(alloc, seen, guard)? {
        return Ok(fault(FaultKind::GuardsOverlap, literal_place(&clause.guard)));
    }
    Ok(None)
}

/// The least fault of guards that can hold beside earlier ones.
fn guards_fault(
    alloc: Global,
    preds: &[PredTree],
    pred: &PredTree,
) -> Result<Option<Fault>, NoMemory>
    requires right { pred_faults preds.now pred.now ≡ [] }
    requires small { PredSmall pred.now }
    requires within { is_pred_within (read_pred preds.now pred.now) ≡ true }
    ensures { IfOk result (λ o. o ≡ least_fault (overlap_faults (guard_of preds.now pred.now.params) [] (clauses pred.now))) }
{
    let params = pred.params.as_slice();
    let others = pred.others.as_slice();
    let mut seen = Vec::new(alloc);
    seen.push(guard_of(alloc, preds, params, &pred.first)?)?;
    let mut least = None;
    for clause in others {
        let guard = guard_of(alloc, preds, params, clause)?;
        least = lesser(least, guard_fault(alloc, seen.as_slice(), &guard, clause)?);
        seen.push(guard)?;
    }
    Ok(least)
}

/// The least fault of clauses that have an instance and no cell.
fn owners_fault(pred: &PredTree) -> Option<Fault>
    ensures { result ≡ least_fault (flat_map unproductive_fault (clauses pred.now)) }
{
    let others = pred.others.as_slice();
    let mut least = owner_fault(&pred.first);
    for clause in others {
        least = lesser(least, owner_fault(clause));
    }
    least
}

/// The least fault of the sizes of blocks in clauses.
fn blocks_fault(pred: &PredTree) -> Option<Fault>
    ensures { result ≡ least_fault (flat_map (λ (c : TheClause). size_faults c.body) (clauses pred.now)) }
{
    let others = pred.others.as_slice();
    let mut least = sizes_fault(&pred.first.body);
    for clause in others {
        least = lesser(least, sizes_fault(&clause.body));
    }
    least
}

/// The least fault of a predicate. Its name stands first, so that a limit that is passed decides.
fn pred_fault(alloc: Global, preds: &[PredTree], pred: &PredTree) -> Result<Option<Fault>, NoMemory>
    requires right { pred_faults preds.now pred.now ≡ [] }
    requires small { PredSmall pred.now }
    requires order { IsTrue (is_name_first pred.now) }
    ensures { IfOk result (λ o. o ≡ least_fault (pred_limit_faults preds.now pred.now)) }
{
    if !is_pred_within(alloc, preds, pred)? {
        return Ok(fault(FaultKind::TooLarge, pred.name.place));
    }
    let guards = guards_fault(alloc, preds, pred)?;
    let owners = owners_fault(pred);
    let blocks = blocks_fault(pred);
    Ok(lesser(lesser(guards, owners), blocks))
}

/// A predicate past the 16th.
fn extra_fault(preds: &[PredTree]) -> Option<Fault>
    ensures { result ≡ least_fault (extra_pred_fault (slice_get preds.now 16)) }
{
    if preds.len() > MOST_PREDS {
        return fault(FaultKind::TooLarge, preds[MOST_PREDS].name.place);
    }
    None
}

/// The least fault of the predicates.
pub(crate) fn preds_fault(alloc: Global, preds: &[PredTree]) -> Result<Option<Fault>, NoMemory>
    requires right { flat_map (pred_faults preds.now) preds.now ≡ [] }
    requires small { All PredSmall preds.now }
    requires order { IsTrue (list_all is_name_first preds.now) }
    ensures { IfOk result (λ o. o ≡ least_fault (preds_part preds.now)) }
{
    let mut least = None;
    for pred in preds {
        least = lesser(least, pred_fault(alloc, preds, pred)?);
    }
    Ok(lesser(least, extra_fault(preds)))
}
