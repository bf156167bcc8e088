//! What Close leaves to do: the focus, an instance of the postcondition, is folded by one clause.

ghost use Rattle.std.specs.Prelude.{IfOk, OnOk, length, map, nat_lt, ◌++◌, ◌-◌, ◌<◌, ◌≡◌};
ghost use Rattle.cyp_pred.specs.Unfold.{count_from};
ghost use Rattle.cyp_step.specs.Leaving.{LeavesRaws};
ghost use Rattle.cyp_step.specs.UnfoldParts.{closed_goal, own_vars};
ghost use Rattle.cyp_step.specs.declared.rule.Rule.TheVariants.{ByClose};

use crate::entries::{inst_in, one_entry};
use crate::flat_rules::{Raws, left};
use crate::next::next_of;
use crate::placing::{put_all, without};
use cyp_heap::{Goal, InstOf, Node};
use cyp_pred::{Next, Unfolded};
use cyp_term::{Copied, List, NoMemory, Sort, Var};
use std::alloc::Global;

/// Adds the variables of the sort that are numbered from one number up to another.
fn add_vars(
    alloc: Global,
    sort: Sort,
    from: u8,
    to: u8,
    vars: &mut List<Var>,
) -> Result<(), NoMemory>
    ensures { OnOk result (vars.new ≡ vars.old ++ map (λ j. record { sort = sort; number = j }) (count_from from (to - from))) }
{
    for number in from..to {
        vars.push(alloc, Var { sort, number })?;
    }
    Ok(())
}

/// Adds the variables that the entry took: integers, then sets.
fn add_own(alloc: Global, next: Next, after: Next, vars: &mut List<Var>) -> Result<(), NoMemory>
    ensures { OnOk result (vars.new ≡ vars.old ++ own_vars next after) }
{
    add_vars(alloc, Sort::Int, next.ints, after.ints, vars)?;
    add_vars(alloc, Sort::Set, next.sets, after.sets, vars)
}

/// The goal after the focus is folded by the clause of this entry.
fn closed_goal(alloc: Global, goal: &Goal, next: Next, entry: Unfolded) -> Result<Goal, NoMemory>
    requires { 0 < length goal.now.post.chunks }
    ensures { IfOk result (λ g. g ≡ closed_goal goal.now next entry) }
{
    let others = without(alloc, &goal.post, 0)?;
    let Unfolded {
        guard,
        lits,
        heap,
        next: after,
    } = entry;
    let mut closed = goal.copy(alloc)?;
    add_own(alloc, next, after, &mut closed.exist)?;
    closed.pure_post.push(alloc, guard)?;
    closed.pure_post.append(lits)?;
    closed.post = put_all(alloc, others, heap.into_chunks())?;
    Ok(closed)
}

/// Whether an instance may have a greater tag than this one.
fn can_be_raised(inst: &InstOf) -> bool
    ensures { result ≡ nat_lt inst.now.tag 255 }
{
    inst.tag < u8::MAX
}

/// What ByClose leaves to do.
pub(crate) fn close(alloc: Global, node: &Node, clause: u8) -> Result<Raws, NoMemory>
    ensures { IfOk result (λ r. LeavesRaws node.now (ByClose clause) r) }
{
    let goal = node.goal();
    let Some(inst) = inst_in(goal.post.chunks(), 0) else {
        return Ok(None);
    };
    if !can_be_raised(inst) {
        return Ok(None);
    }
    let next = next_of(alloc, node)?;
    let Some(entry) = one_entry(alloc, node, inst, next, clause)? else {
        return Ok(None);
    };
    let closed = closed_goal(alloc, goal, next, entry)?;
    let _formed = node.preds().get().list();
    left(alloc, node, Some(closed))
}
