//! What the rules that unfold nothing leave to do, before the normal form.

ghost use Rattle.std.specs.Prelude.{[], IfOk, IsTrue, Some, length, option_map, ◌&&◌, ◌==◌, ◌∷◌, ◌≡◌, ◌≤◌};
ghost use Rattle.std.specs.Option.{ForSome};
ghost use Rattle.cyp_heap.specs.Formed.{insts_fit};
ghost use Rattle.cyp_step.specs.Changes.{new_int};
ghost use Rattle.cyp_step.specs.Step.{raws};
ghost use Rattle.cyp_step.specs.declared.rule.Rule.TheVariants.{ByAlloc, ByEmp, ByFrame, ByFree, ByInconsistent, ByPick, ByRead, ByWrite};

use crate::allocating::after_alloc;
use crate::flat_goals::{after_free, after_pick, after_read, after_write};
use crate::framing::after_frame;
use crate::next::next_of;
use crate::showing::{can_hold, shown};
use cyp_heap::{Goal, Node, Raw};
use cyp_term::{Copied, List, NoMemory, Sort, Var};
use std::alloc::Global;

/// The nodes that a rule leaves to do, before the normal form, or `None` where it isn't allowed.
pub(crate) type Raws = Option<List<Raw>>;

/// The node with the goal, where there is one.
pub(crate) fn left(alloc: Global, node: &Node, goal: Option<Goal>) -> Result<Raws, NoMemory>
    requires { ForSome goal (λ g. IsTrue (insts_fit node.now.preds g)) }
    ensures { IfOk result (λ r. r ≡ option_map (λ g. record node.now { goal = g } ∷ []) goal) }
{
    let Some(goal) = goal else {
        return Ok(None);
    };
    let preds = node.preds().copy(alloc)?;
    let links = node.links().copy(alloc)?;
    let mut raws = Vec::new(alloc);
    raws.push(Raw::new(preds, goal, links))?;
    Ok(Some(List::from_vec(raws)))
}

/// A new integer variable. Its number is at most 32.
fn new_int(alloc: Global, node: &Node) -> Result<Var, NoMemory>
    ensures value { IfOk result (λ v. v ≡ new_int node.now) }
    ensures low { IfOk result (λ v. v.number ≤ 32) }
{
    let number = next_of(alloc, node)?.ints;
    Ok(Var {
        sort: Sort::Int,
        number,
    })
}

/// No node is left.
fn nothing(alloc: Global) -> Raws
    ensures { result ≡ Some [] }
{
    Some(List::from_vec(Vec::new(alloc)))
}

/// What ByInconsistent leaves to do.
pub(crate) fn inconsistent(alloc: Global, node: &Node) -> Result<Raws, NoMemory>
    ensures { IfOk result (λ r. r ≡ raws node.now ByInconsistent) }
{
    if can_hold(alloc, node.goal())? {
        return Ok(None);
    }
    Ok(nothing(alloc))
}

fn has_nothing_left(goal: &Goal) -> bool
    ensures { result ≡ (length goal.now.pre.chunks == 0 && length goal.now.post.chunks == 0 && length goal.now.exist == 0) }
{
    goal.pre.chunks().is_empty() && goal.post.chunks().is_empty() && goal.exist.len() == 0
}

/// What ByEmp leaves to do.
pub(crate) fn emp(alloc: Global, node: &Node) -> Result<Raws, NoMemory>
    ensures { IfOk result (λ r. r ≡ raws node.now ByEmp) }
{
    let goal = node.goal();
    if !has_nothing_left(goal) || !shown(alloc, goal, goal.pure_post.as_slice())? {
        return Ok(None);
    }
    Ok(nothing(alloc))
}

/// What ByRead leaves to do.
pub(crate) fn read(alloc: Global, node: &Node, place: u8) -> Result<Raws, NoMemory>
    ensures { IfOk result (λ r. r ≡ raws node.now (ByRead place)) }
{
    let var = new_int(alloc, node)?;
    let goal = after_read(alloc, node.goal(), place, var)?;
    left(alloc, node, goal)
}

/// What ByFrame leaves to do.
pub(crate) fn frame(alloc: Global, node: &Node, place: u8) -> Result<Raws, NoMemory>
    ensures { IfOk result (λ r. r ≡ raws node.now (ByFrame place)) }
{
    let goal = after_frame(alloc, node.goal(), place)?;
    left(alloc, node, goal)
}

/// What ByWrite leaves to do.
pub(crate) fn write(alloc: Global, node: &Node, place: u8) -> Result<Raws, NoMemory>
    ensures { IfOk result (λ r. r ≡ raws node.now (ByWrite place)) }
{
    let goal = after_write(alloc, node.goal(), place)?;
    left(alloc, node, goal)
}

/// What ByFree leaves to do.
pub(crate) fn free(alloc: Global, node: &Node, place: u8) -> Result<Raws, NoMemory>
    ensures { IfOk result (λ r. r ≡ raws node.now (ByFree place)) }
{
    let goal = after_free(alloc, node.goal(), place)?;
    left(alloc, node, goal)
}

/// What ByAlloc leaves to do.
pub(crate) fn allocate(alloc: Global, node: &Node) -> Result<Raws, NoMemory>
    ensures { IfOk result (λ r. r ≡ raws node.now ByAlloc) }
{
    let var = new_int(alloc, node)?;
    let goal = after_alloc(alloc, node.goal(), var)?;
    left(alloc, node, goal)
}

/// What ByPick leaves to do.
pub(crate) fn pick(alloc: Global, node: &Node, var: Var) -> Result<Raws, NoMemory>
    ensures { IfOk result (λ r. r ≡ raws node.now (ByPick var)) }
{
    let goal = after_pick(alloc, node.goal(), var)?;
    left(alloc, node, goal)
}
