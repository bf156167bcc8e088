ghost use Rattle.std.specs.Prelude.{IfOk, [], ◌≡◌};
ghost use Rattle.cyp_spec.specs.Small.{TextSmall};
ghost use Rattle.cyp_formed.specs.LimitFaults.{limit_faults};
ghost use Rattle.cyp_names.specs.NameFaults.{name_faults};
ghost use Rattle.cyp_names.specs.Specifications.{read_preds, read_tree};

use crate::spec::Spec;
use cyp_heap::Preds;
use cyp_reading::read_goal;
use cyp_term::{Copied, NoMemory, Shared};
use cyp_text::TextTree;
use std::alloc::Global;

/// The predicates of a text without faults.
fn read_preds(alloc: Global, tree: &TextTree) -> Result<Preds, NoMemory>
    requires names { name_faults tree.now ≡ [] }
    requires limits { limit_faults tree.now ≡ [] }
    requires small { TextSmall tree.now }
    ensures { IfOk result (λ ps. ps ≡ read_preds tree.now.preds) }
{
    let list = cyp_reading::read_preds(alloc, tree.preds.as_slice())?;
    Ok(Preds::new(list))
}

/// The specification that a text without faults says. Its numbers are those of tokens.
pub(crate) fn spec_of(alloc: Global, tree: &TextTree) -> Result<Spec, NoMemory>
    requires names { name_faults tree.now ≡ [] }
    requires limits { limit_faults tree.now ≡ [] }
    requires small { TextSmall tree.now }
    ensures { IfOk result (λ s. s ≡ read_tree tree.now) }
{
    let preds = read_preds(alloc, tree)?;
    let shared = Shared::new(alloc, preds)?;
    let name = tree.name.text.text(alloc)?;
    let goal = read_goal(alloc, tree)?;
    Ok(Spec::new(shared, name, goal))
}
