//! What ByCall leaves to do, before the normal form.

ghost use Rattle.std.specs.Prelude.{IfOk, MatchOption, None, Some, length, slice_get, ◌≡◌, ◌≤◌};
ghost use Rattle.cyp_heap.specs.Keeps.{KeepsNode};
ghost use Rattle.cyp_step.specs.Called.{goal_after, goal_by};
ghost use Rattle.cyp_step.specs.Leaving.{LeavesRaws};
ghost use Rattle.cyp_step.specs.declared.rule.Rule.TheVariants.{ByCall};
ghost use Rattle.cyp_unify.specs.Matches.{match_at};

use crate::callable::is_callable;
use crate::called::called_goal;
use crate::flat_rules::{Raws, left};
use crate::rule::CallBy;
use cyp_heap::{Goal, Link, Node};
use cyp_term::NoMemory;
use cyp_unify::{Match, match_at};
use std::alloc::Global;

/// The goal after a call of the companion by the match. It is `None` where the companion can't be
/// called, and where an offset in what it leaves passes 2^32 in size.
fn goal_after(
    alloc: Global,
    node: &Node,
    link: &Link,
    found: &Match,
) -> Result<Option<Goal>, NoMemory>
    requires long { length link.now.own ≡ length link.now.tuple }
    requires few { length link.now.goal.post.chunks ≤ 16 }
    ensures { IfOk result (λ g. g ≡ goal_after node.now link.now found.now) }
{
    if !is_callable(alloc, node, link, found)? {
        return Ok(None);
    }
    called_goal(alloc, node, link, found)
}

/// The goal after a call of the companion, which is at the call's place, by the call's pairing.
fn goal_by(alloc: Global, node: &Node, link: &Link, by: &CallBy) -> Result<Option<Goal>, NoMemory>
    requires at { slice_get node.now.links by.now.link ≡ Some link.now }
    requires long { length link.now.own ≡ length link.now.tuple }
    requires few { length link.now.goal.post.chunks ≤ 16 }
    ensures { IfOk result (λ g. g ≡ goal_by node.now link.now (match_at node.now link.now by.now.pairs)) }
{
    match match_at(alloc, node, by.link, by.pairs.as_slice())? {
        Some(found) => goal_after(alloc, node, link, &found),
        None => Ok(None),
    }
}

/// The companion at the place, where there is one.
fn link_at(node: &Node, place: u8) -> Option<&Link>
    ensures link { MatchOption result (slice_get node.now.links place ≡ None) (λ l. slice_get node.now.links place ≡ Some l.now) }
    ensures keeps { KeepsNode node.now }
{
    node.links().as_slice().get(place as usize)
}

/// What ByCall leaves to do. It is `None` where the companion can't be called by the pairing, and
/// where an offset in what it leaves passes 2^32 in size.
pub(crate) fn call(alloc: Global, node: &Node, by: &CallBy) -> Result<Raws, NoMemory>
    ensures { IfOk result (LeavesRaws node.now (ByCall by.now)) }
{
    match link_at(node, by.link) {
        Some(link) => {
            let goal = goal_by(alloc, node, link, by)?;
            left(alloc, node, goal)
        }
        None => Ok(None),
    }
}
