//! Nodes of specifications.

ghost use Rattle.std.specs.Prelude.{[], IfOk, ◌≡◌};

use cyp_goal::{Renamed, normal};
use cyp_heap::{Node, Raw};
use cyp_spec::{Spec, read_spec};
use cyp_step::{Rule, premises_of};
use cyp_term::{Copied, Fail as Refused, List, NoMemory};
use std::alloc::Global;

/// Frees a list.
pub(crate) const DISPOSE: &[u8] =
    b"predicate sll(loc x, set s) { | x == 0 => { s =i {} ; emp } | not (x == 0) => { s =i {v} ++ t ; [x, 2] ** x :-> v ** (x + 1) :-> n ** sll(n, t) } } void dispose(loc x) { sll(x, s) } { emp }";

/// The goal over its predicates, without companions.
fn raw_of_spec(alloc: Global, spec: &Spec) -> Result<Raw, NoMemory>
    ensures { IfOk result (λ r. r ≡ record { preds = spec.now.preds; goal = spec.now.goal; links = [] }) }
{
    let preds = spec.preds().copy(alloc)?;
    let goal = spec.goal().copy(alloc)?;
    Ok(Raw::new(preds, goal, List::from_vec(Vec::new(alloc))))
}

/// The normal form of the goal, where it is within the limits.
fn root_of_spec(alloc: Global, spec: &Spec) -> Result<Option<Node>, NoMemory> {
    let raw = raw_of_spec(alloc, spec)?;
    match normal(alloc, raw) {
        Ok(renamed) => Ok(Some(renamed.node)),
        Err(Refused::Named(_)) => Ok(None),
        Err(Refused::NoMemory) => Err(NoMemory),
    }
}

/// The root of the text's specification, where the text has one.
pub(crate) fn root(alloc: Global, text: &[u8]) -> Result<Option<Node>, NoMemory> {
    match read_spec(alloc, text) {
        Ok(spec) => root_of_spec(alloc, &spec),
        Err(Refused::Named(_)) => Ok(None),
        Err(Refused::NoMemory) => Err(NoMemory),
    }
}

/// The node at the place, where there is one.
fn node_at(forms: List<Renamed>, place: usize) -> Option<Node> {
    let mut forms = forms;
    if place < forms.len() {
        Some(forms.remove(place).node)
    } else {
        None
    }
}

/// The premise of the rule at the place, where the node is there and has it.
fn after(
    alloc: Global,
    node: Option<Node>,
    rule: Rule,
    place: usize,
) -> Result<Option<Node>, NoMemory> {
    let Some(node) = node else {
        return Ok(None);
    };
    match premises_of(alloc, &node, &rule)? {
        Some(forms) => Ok(node_at(forms, place)),
        None => Ok(None),
    }
}

/// The node of `DISPOSE` where the rest of a list is left: its first node is opened, read and freed.
pub(crate) fn freed(alloc: Global) -> Result<Option<Node>, NoMemory> {
    let opened = after(alloc, root(alloc, DISPOSE)?, Rule::ByOpen(0), 1)?;
    let content = after(alloc, opened, Rule::ByRead(2), 0)?;
    let rest = after(alloc, content, Rule::ByRead(3), 0)?;
    after(alloc, rest, Rule::ByFree(1), 0)
}
