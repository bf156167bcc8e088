ghost use Rattle.std.specs.Prelude.{◌≡◌, IfOk, flat_map};
ghost use Rattle.cyp_names.specs.LeastFaults.{clause_sorts, set_guard_fault};
ghost use Rattle.cyp_names.specs.Places.{is_set_base};
ghost use Rattle.cyp_names.specs.NameFaults.{clause_faults, guard_faults, pred_faults, unbound_fault};
ghost use Rattle.cyp_names.specs.FaultOrder.{least_fault};

use crate::body_uses::{add_body, add_params};
use crate::instances::chunks_fault;
use crate::least::{fault, lesser};
use crate::places::literal_place;
use crate::repeats::{first_repeat, is_declared};
use crate::sorts::sort_fault;
use crate::uses::{NamedUse, Order, add_literal};
use cyp_lex::{Fault, FaultKind};
use cyp_term::NoMemory;
use cyp_text::{BaseTree, ClauseTree, LitTree, ParamTree, PredTree};
use std::alloc::Global;

fn is_set_base(base: &BaseTree) -> bool
    ensures { result ≡ is_set_base base.now }
{
    match base {
        BaseTree::Comparing(_, _, _) => false,
        _ => true,
    }
}

/// The fault of a guard that is an equality, inclusion or membership of sets.
fn set_guard_fault(guard: &LitTree) -> Option<Fault>
    ensures { result ≡ least_fault (set_guard_fault guard.now) }
{
    if is_set_base(guard.base()) {
        fault(FaultKind::WrongSort, literal_place(guard))
    } else {
        None
    }
}

/// The fault of a name that is no parameter.
fn unbound_fault(params: &[ParamTree], used: &NamedUse<'_>) -> Option<Fault>
    ensures { result ≡ least_fault (unbound_fault params.now used.now) }
{
    if is_declared(used.name(), params) {
        None
    } else {
        fault(FaultKind::UnboundVariable, used.name().place)
    }
}

fn unbound_faults(params: &[ParamTree], uses: &[NamedUse<'_>]) -> Option<Fault>
    ensures { result ≡ least_fault (flat_map (unbound_fault params.now) uses.now) }
{
    let mut found = None;
    for used in uses {
        found = lesser(found, unbound_fault(params, used));
    }
    found
}

/// The least fault of a guard by itself.
fn guard_fault(
    alloc: Global,
    params: &[ParamTree],
    guard: &LitTree,
) -> Result<Option<Fault>, NoMemory>
    ensures { IfOk result (λ f. f ≡ least_fault (guard_faults params.now guard.now)) }
{
    let mut uses = Vec::new(alloc);
    add_literal(&mut uses, Order::OfText, guard)?;
    let unbound = unbound_faults(params, uses.as_slice());
    Ok(lesser(set_guard_fault(guard), unbound))
}

/// The least fault of a use in a clause whose sort isn't that of its name.
fn clause_sort_fault(
    alloc: Global,
    preds: &[PredTree],
    params: &[ParamTree],
    clause: &ClauseTree,
) -> Result<Option<Fault>, NoMemory>
    ensures { IfOk result (λ f. f ≡ least_fault (clause_sorts preds.now params.now clause.now)) }
{
    let mut seen = Vec::new(alloc);
    add_params(&mut seen, params)?;
    let mut uses = Vec::new(alloc);
    add_literal(&mut uses, Order::OfText, &clause.guard)?;
    add_body(&mut uses, Order::OfText, preds, &clause.body)?;
    sort_fault(seen, uses.as_slice())
}

/// The least fault of a clause.
fn clause_fault(
    alloc: Global,
    preds: &[PredTree],
    params: &[ParamTree],
    clause: &ClauseTree,
) -> Result<Option<Fault>, NoMemory>
    ensures { IfOk result (λ f. f ≡ least_fault (clause_faults preds.now params.now clause.now)) }
{
    let of_guard = guard_fault(alloc, params, &clause.guard)?;
    let of_sorts = clause_sort_fault(alloc, preds, params, clause)?;
    let of_instances = chunks_fault(preds, clause.body.chunks.as_slice());
    Ok(lesser(lesser(of_guard, of_sorts), of_instances))
}

fn clauses_fault(
    alloc: Global,
    preds: &[PredTree],
    params: &[ParamTree],
    clauses: &[ClauseTree],
) -> Result<Option<Fault>, NoMemory>
    ensures { IfOk result (λ f. f ≡ least_fault (flat_map (clause_faults preds.now params.now) clauses.now)) }
{
    let mut found = None;
    for clause in clauses {
        let fault = clause_fault(alloc, preds, params, clause)?;
        found = lesser(found, fault);
    }
    Ok(found)
}

/// The least fault of a predicate: a second parameter of a name, or a fault of a clause.
fn pred_fault(alloc: Global, preds: &[PredTree], pred: &PredTree) -> Result<Option<Fault>, NoMemory>
    ensures { IfOk result (λ f. f ≡ least_fault (pred_faults preds.now pred.now)) }
{
    let params = pred.params.as_slice();
    let of_params = first_repeat(params);
    let of_first = clause_fault(alloc, preds, params, &pred.first)?;
    let of_others = clauses_fault(alloc, preds, params, pred.others.as_slice())?;
    Ok(lesser(of_params, lesser(of_first, of_others)))
}

/// The least fault of the predicates, each by itself.
pub(crate) fn preds_fault(alloc: Global, preds: &[PredTree]) -> Result<Option<Fault>, NoMemory>
    ensures { IfOk result (λ f. f ≡ least_fault (flat_map (pred_faults preds.now) preds.now)) }
{
    let mut found = None;
    for pred in preds {
        let fault = pred_fault(alloc, preds, pred)?;
        found = lesser(found, fault);
    }
    Ok(found)
}
