ghost use Rattle.std.specs.Prelude.{[], IfOk, ◌≡◌};
ghost use Rattle.cyp_spec.specs.InOrder.{IsInOrder};
ghost use Rattle.cyp_spec.specs.LimitParts.{preds_part};
ghost use Rattle.cyp_spec.specs.Small.{TextSmall};
ghost use Rattle.cyp_formed.specs.LimitFaults.{limit_faults};
ghost use Rattle.cyp_names.specs.NameFaults.{name_faults};
ghost use Rattle.cyp_names.specs.FaultOrder.{least_fault};

use crate::block_sizes::sizes_fault;
use crate::pred_limits::preds_fault;
use crate::root_limits::root_fault;
use cyp_lex::Fault;
use cyp_names::lesser;
use cyp_term::NoMemory;
use cyp_text::TextTree;
use std::alloc::Global;

/// The least fault of limits of a text whose predicates have none.
fn procedure_fault(alloc: Global, tree: &TextTree) -> Result<Option<Fault>, NoMemory>
    requires names { name_faults tree.now ≡ [] }
    requires small { TextSmall tree.now }
    requires order { IsInOrder tree.now }
    requires preds { preds_part tree.now.preds ≡ [] }
    ensures { IfOk result (λ o. o ≡ least_fault (limit_faults tree.now)) }
{
    let pre = sizes_fault(&tree.pre);
    let post = sizes_fault(&tree.post);
    let root = root_fault(alloc, tree)?;
    let sizes = lesser(pre, post);
    let least = lesser(sizes, root);
    Ok(least)
}

/// The least fault of predicates and limits of a text whose names and sorts are right, if it has
/// any: guards that can both hold, a clause with an instance and no cell, a size of a block outside
/// 1 to 8, and what passes a limit. Its numbers are those of tokens, and its places rise.
pub(crate) fn limit_fault(alloc: Global, tree: &TextTree) -> Result<Option<Fault>, NoMemory>
    requires names { name_faults tree.now ≡ [] }
    requires small { TextSmall tree.now }
    requires order { IsInOrder tree.now }
    ensures { IfOk result (λ o. o ≡ least_fault (limit_faults tree.now)) }
{
    let preds = tree.preds.as_slice();
    let found = preds_fault(alloc, preds)?;
    match found {
        Some(fault) => Ok(Some(fault)),
        None => procedure_fault(alloc, tree),
    }
}
