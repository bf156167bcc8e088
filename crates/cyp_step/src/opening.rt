//! What Open leaves to do: an instance of the precondition is unfolded, one premise for each clause,
//! and the goal becomes a companion of these.

ghost use Rattle.std.specs.Prelude.{IfOk, IsTrue, Some, length, map, slice_get, ◌++◌, ◌<◌, ◌∷◌, ◌≡◌};
ghost use Rattle.std.specs.List.{All};
ghost use Rattle.cyp_heap.specs.declared.chunk.Chunk.TheVariants.{Inst};
ghost use Rattle.cyp_step.specs.Changes.{pre_of};
ghost use Rattle.cyp_step.specs.Leaving.{LeavesRaws};
ghost use Rattle.cyp_step.specs.UnfoldParts.{HasFits, has_room, opened_goal};
ghost use Rattle.cyp_step.specs.Unfolding.{open_link, open_premise};
ghost use Rattle.cyp_step.specs.declared.rule.Rule.TheVariants.{ByOpen};

use crate::entries::{all_entries, inst_in};
use crate::flat_goals::with_pre;
use crate::flat_rules::Raws;
use crate::identity::identity_map;
use crate::measures::measure;
use crate::next::next_of;
use crate::placing::{put_all, without};
use crate::testable::are_testable;
use cyp_heap::{Goal, InstOf, Link, Node, Raw};
use cyp_pred::Unfolded;
use cyp_term::{Copied, List, NoMemory, Shared};
use std::alloc::Global;

const MOST_LINKS: usize = 4;

/// Whether a node may have a link more and the instance a greater tag.
fn has_room(node: &Node, inst: &InstOf) -> bool
    ensures { result ≡ has_room node.now inst.now }
{
    node.links().len() < MOST_LINKS && inst.tag < u8::MAX
}

/// The companion that the node becomes where the instance at the place is opened.
fn open_link(alloc: Global, node: &Node, place: u8, inst: &InstOf) -> Result<Link, NoMemory>
    requires at { slice_get (pre_of node.now) place ≡ Some (Inst inst.now) }
    ensures { IfOk result (λ l. l ≡ open_link node.now place inst.now) }
{
    let others = without(alloc, &node.goal().pre, place)?;
    let own = measure(alloc, node.links().as_slice(), inst, &others)?;
    let tuple = own.copy(alloc)?;
    let map = identity_map(alloc, node)?;
    let goal = Shared::new(alloc, node.goal().copy(alloc)?)?;
    Ok(Link {
        goal,
        own,
        map,
        tuple,
    })
}

/// The goal where a clause takes the place of the instance.
fn opened_goal(alloc: Global, goal: &Goal, place: u8, entry: Unfolded) -> Result<Goal, NoMemory>
    requires { place < length goal.now.pre.chunks }
    ensures { IfOk result (λ g. g ≡ opened_goal goal.now place entry) }
{
    let others = without(alloc, &goal.pre, place)?;
    let Unfolded {
        guard,
        lits,
        heap,
        ..
    } = entry;
    let pre = put_all(alloc, others, heap.into_chunks())?;
    let mut opened = with_pre(alloc, goal, pre)?;
    opened.pure_pre.push(alloc, guard)?;
    opened.pure_pre.append(lits)?;
    Ok(opened)
}

/// The premise of a clause, with the companion behind those of the node.
fn open_premise(
    alloc: Global,
    node: &Node,
    place: u8,
    link: &Link,
    entry: Unfolded,
) -> Result<Raw, NoMemory>
    requires place { place < length (pre_of node.now) }
    requires fits { HasFits (open_premise node.now place link.now entry) }
    ensures { IfOk result (λ m. m ≡ open_premise node.now place link.now entry) }
{
    let goal = opened_goal(alloc, node.goal(), place, entry)?;
    let preds = node.preds().copy(alloc)?;
    let mut links = node.links().copy(alloc)?;
    links.push(alloc, link.copy(alloc)?)?;
    Ok(Raw::new(preds, goal, links))
}

/// The premises, one for each clause.
fn open_premises(
    alloc: Global,
    node: &Node,
    place: u8,
    link: &Link,
    entries: List<Unfolded>,
) -> Result<List<Raw>, NoMemory>
    requires place { place < length (pre_of node.now) }
    requires fits { All HasFits (map (open_premise node.now place link.now) entries) }
    ensures { IfOk result (λ ms. ms ≡ map (open_premise node.now place link.now) entries) }
{
    let mut premises = Vec::with_capacity(alloc, entries.len())?;
    for entry in entries.into_vec() {
        premises.push(open_premise(alloc, node, place, link, entry)?)?;
    }
    Ok(List::from_vec(premises))
}

/// What ByOpen leaves to do.
pub(crate) fn open(alloc: Global, node: &Node, place: u8) -> Result<Raws, NoMemory>
    ensures { IfOk result (λ r. LeavesRaws node.now (ByOpen place) r) }
{
    let Some(inst) = inst_in(node.goal().pre.chunks(), place as usize) else {
        return Ok(None);
    };
    if !has_room(node, inst) {
        return Ok(None);
    }
    let next = next_of(alloc, node)?;
    let Some(entries) = all_entries(alloc, node, inst, next)? else {
        return Ok(None);
    };
    if !are_testable(node.goal(), entries.as_slice()) {
        return Ok(None);
    }
    let link = open_link(alloc, node, place, inst)?;
    let _formed = node.preds().get().list();
    Ok(Some(open_premises(alloc, node, place, &link, entries)?))
}
