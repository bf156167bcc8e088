ghost use Rattle.std.specs.Prelude.{[], IfOk, is_some, ◌≡◌};
ghost use Rattle.cyp_goal.specs.Normal.{normal};
ghost use Rattle.cyp_spec.specs.LimitParts.{preds_part, root_part};
ghost use Rattle.cyp_reading.specs.Mended.{mended_text};
ghost use Rattle.cyp_spec.specs.Small.{TextSmall};
ghost use Rattle.cyp_spec.specs.WrittenGoals.{IsWritten};
ghost use Rattle.cyp_formed.specs.LimitFaults.{is_root_within, root_of};
ghost use Rattle.cyp_names.specs.NameFaults.{name_faults};
ghost use Rattle.cyp_names.specs.FaultOrder.{least_fault};
ghost use Rattle.cyp_names.specs.Specifications.{read_goal, read_tree};

use crate::goal_limits::is_goal_within;
use cyp_goal::normal;
use cyp_heap::{Goal, Preds, Raw};
use cyp_lex::{Fault, FaultKind};
use cyp_names::{fault, goal_scope};
use cyp_reading::{read_goal, read_preds};
use cyp_term::{Fail, List, NoMemory, Shared, Sort};
use cyp_text::TextTree;
use std::alloc::Global;

/// The limit of chunks of a precondition.
const MOST_CHUNKS: usize = 16;

/// No goal within the limits has more names of a sort.
const MOST_NAMES: usize = 64;

/// The goal of a text, where it passes no limit as it is written.
fn written_goal(alloc: Global, tree: &TextTree) -> Result<Option<Goal>, NoMemory>
    requires names { name_faults tree.now ≡ [] }
    requires small { TextSmall tree.now }
    requires preds { preds_part tree.now.preds ≡ [] }
    ensures { IfOk result (IsWritten tree.now) }
{
    if tree.pre.chunks.len() > MOST_CHUNKS {
        return Ok(None);
    }
    let scope = goal_scope(alloc, tree)?;
    if scope.count(Sort::Int) > MOST_NAMES {
        return Ok(None);
    }
    if scope.count(Sort::Set) > MOST_NAMES {
        return Ok(None);
    }
    let goal = read_goal(alloc, tree)?;
    if !is_goal_within(alloc, &goal)? {
        return Ok(None);
    }
    Ok(Some(goal))
}

/// Whether the goal has a normal form.
fn has_normal_form(alloc: Global, tree: &TextTree, goal: Goal) -> Result<bool, NoMemory>
    requires names { name_faults tree.now ≡ [] }
    requires small { TextSmall tree.now }
    requires preds { preds_part tree.now.preds ≡ [] }
    requires goal { goal ≡ read_goal (mended_text tree.now) }
    ensures { IfOk result (λ b. b ≡ is_some (normal (root_of (read_tree tree.now)))) }
{
    let list = read_preds(alloc, tree.preds.as_slice())?;
    let preds = Shared::new(alloc, Preds::new(list))?;
    let links = List::from_vec(Vec::new(alloc));
    match normal(alloc, Raw::new(preds, goal, links)) {
        Ok(_renamed) => Ok(true),
        Err(Fail::Named(_too_large)) => Ok(false),
        Err(Fail::NoMemory) => Err(NoMemory),
    }
}

/// Whether the goal of a text passes no limit, as it is written and in its normal form.
fn is_root_within(alloc: Global, tree: &TextTree) -> Result<bool, NoMemory>
    requires names { name_faults tree.now ≡ [] }
    requires small { TextSmall tree.now }
    requires preds { preds_part tree.now.preds ≡ [] }
    ensures { IfOk result (λ b. b ≡ is_root_within (read_tree tree.now)) }
{
    match written_goal(alloc, tree)? {
        Some(goal) => {
            let within = has_normal_form(alloc, tree, goal)?;
            Ok(within)
        }
        None => Ok(false),
    }
}

/// The fault of the goal of a text whose predicates have none, at the procedure's name.
pub(crate) fn root_fault(alloc: Global, tree: &TextTree) -> Result<Option<Fault>, NoMemory>
    requires names { name_faults tree.now ≡ [] }
    requires small { TextSmall tree.now }
    requires preds { preds_part tree.now.preds ≡ [] }
    ensures { IfOk result (λ o. o ≡ least_fault (root_part tree.now)) }
{
    if is_root_within(alloc, tree)? {
        return Ok(None);
    }
    Ok(fault(FaultKind::TooLarge, tree.name.place))
}
