ghost use Rattle.std.specs.Prelude.{◌≡◌, IfOk, flat_map};
ghost use Rattle.cyp_names.specs.LeastFaults.{proc_sorts};
ghost use Rattle.cyp_names.specs.NameFaults.{name_faults, proc_faults, set_param_fault};
ghost use Rattle.cyp_names.specs.FaultOrder.{least_fault};

use crate::body_uses::{add_body, add_params};
use crate::clauses::preds_fault;
use crate::instances::chunks_fault;
use crate::least::{fault, lesser};
use crate::predicates::param_sort;
use crate::repeats::first_repeat;
use crate::sorts::{is_same_sort, sort_fault};
use crate::uses::Order;
use cyp_lex::{Fault, FaultKind};
use cyp_term::{NoMemory, Sort};
use cyp_text::{ParamTree, TextTree};
use std::alloc::Global;

/// The fault of the word `set` at a parameter of the procedure.
fn set_param_fault(param: &ParamTree) -> Option<Fault>
    ensures { result ≡ least_fault (set_param_fault param.now) }
{
    if is_same_sort(param_sort(param), Sort::Set) {
        fault(FaultKind::WrongSort, param.place)
    } else {
        None
    }
}

fn set_params_fault(params: &[ParamTree]) -> Option<Fault>
    ensures { result ≡ least_fault (flat_map set_param_fault params.now) }
{
    let mut found = None;
    for param in params {
        found = lesser(found, set_param_fault(param));
    }
    found
}

/// The least fault of a use in the procedure's bodies whose sort isn't that of its name.
fn procedure_sort_fault(alloc: Global, tree: &TextTree) -> Result<Option<Fault>, NoMemory>
    ensures { IfOk result (λ f. f ≡ least_fault (proc_sorts tree.now)) }
{
    let preds = tree.preds.as_slice();
    let mut seen = Vec::new(alloc);
    add_params(&mut seen, tree.params.as_slice())?;
    let mut uses = Vec::new(alloc);
    add_body(&mut uses, Order::OfText, preds, &tree.pre)?;
    add_body(&mut uses, Order::OfText, preds, &tree.post)?;
    sort_fault(seen, uses.as_slice())
}

/// The least fault of the procedure.
fn procedure_fault(alloc: Global, tree: &TextTree) -> Result<Option<Fault>, NoMemory>
    ensures { IfOk result (λ f. f ≡ least_fault (proc_faults tree.now)) }
{
    let preds = tree.preds.as_slice();
    let params = tree.params.as_slice();
    let of_params = lesser(first_repeat(params), set_params_fault(params));
    let of_sorts = procedure_sort_fault(alloc, tree)?;
    let of_pre = chunks_fault(preds, tree.pre.chunks.as_slice());
    let of_post = chunks_fault(preds, tree.post.chunks.as_slice());
    Ok(lesser(lesser(of_params, of_sorts), lesser(of_pre, of_post)))
}

/// The fault of names and sorts of a text that has the least place, and among those at one place the
/// least number.
pub fn name_fault(alloc: Global, tree: &TextTree) -> Result<Option<Fault>, NoMemory>
    ensures { IfOk result (λ f. f ≡ least_fault (name_faults tree.now)) }
{
    let preds = tree.preds.as_slice();
    let of_names = first_repeat(preds);
    let of_preds = preds_fault(alloc, preds)?;
    let of_procedure = procedure_fault(alloc, tree)?;
    Ok(lesser(lesser(of_names, of_preds), of_procedure))
}
