//! The premises of a rule at a node.

ghost use Rattle.std.specs.Prelude.{IfOk, IsTrue, Some, false, ◌↔◌, ◌≡◌};
ghost use Rattle.std.specs.List.{All};
ghost use Rattle.cyp_goal.specs.Normal.{normal};
ghost use Rattle.cyp_heap.specs.Formed.{IsWellLinked};
ghost use Rattle.cyp_heap.specs.Goals.{wide_node};
ghost use Rattle.cyp_step.specs.Leaving.{LeavesRaws};
ghost use Rattle.cyp_step.specs.RuleKinds.{IsFlatRule};
ghost use Rattle.cyp_step.specs.Step.{all_normal, nodes_of, premises as the_premises, raws, renamed_premises};

use crate::calling::call;
use crate::closing::close;
use crate::flat_rules::{Raws, allocate, emp, frame, free, inconsistent, pick, read, write};
use crate::narrow::Narrow;
use crate::opening::open;
use crate::rule::Rule;
use cyp_goal::{Renamed, TooLarge, normal};
use cyp_heap::{Node, Raw};
use cyp_term::{Exact, Fail, List, NoMemory, Shared};
use std::alloc::Global;

/// What a rule leaves to do that unfolds and calls nothing.
fn flat_raws(alloc: Global, node: &Node, rule: &Rule) -> Result<Raws, NoMemory>
    requires { IsFlatRule rule.now }
    ensures { IfOk result (λ r. r ≡ raws node.now rule.now) }
{
    match rule {
        Rule::ByInconsistent => inconsistent(alloc, node),
        Rule::ByEmp => emp(alloc, node),
        Rule::ByRead(place) => read(alloc, node, *place),
        Rule::ByFrame(place) => frame(alloc, node, *place),
        Rule::ByWrite(place) => write(alloc, node, *place),
        Rule::ByFree(place) => free(alloc, node, *place),
        Rule::ByAlloc => allocate(alloc, node),
        Rule::ByPick(var) => pick(alloc, node, *var),
        Rule::ByCall(_) | Rule::ByOpen(_) | Rule::ByClose(_) => unreachable!(),
    }
}

/// What the rule leaves to do.
fn raws(alloc: Global, node: &Node, rule: &Rule) -> Result<Raws, NoMemory>
    ensures { IfOk result (λ r. LeavesRaws node.now rule.now r) }
{
    match rule {
        Rule::ByCall(by) => call(alloc, node, by),
        Rule::ByOpen(place) => open(alloc, node, *place),
        Rule::ByClose(clause) => close(alloc, node, *clause),
        _ => flat_raws(alloc, node, rule),
    }
}

/// The normal form, or `None` where a limit of a node is passed.
fn normal_form(alloc: Global, raw: Raw) -> Result<Option<Renamed>, NoMemory>
    requires { IsWellLinked raw }
    ensures narrow { wide_node raw ≡ false }
    ensures form { IfOk result (λ r. r ≡ normal raw) }
{
    raw.narrow();
    match normal(alloc, raw) {
        Ok(renamed) => Ok(Some(renamed)),
        Err(Fail::Named(TooLarge)) => Ok(None),
        Err(Fail::NoMemory) => Err(NoMemory),
    }
}

/// The normal form of each, or `None` where a limit of a node is passed.
fn normal_forms(alloc: Global, raws: List<Raw>) -> Result<Option<List<Renamed>>, NoMemory>
    requires { All IsWellLinked raws }
    ensures { IfOk result (λ r. r ≡ all_normal raws) }
{
    let mut forms = Vec::with_capacity(alloc, raws.len())?;
    for raw in raws.into_vec() {
        let Some(form) = normal_form(alloc, raw)? else {
            return Ok(None);
        };
        forms.push(form)?;
    }
    Ok(Some(List::from_vec(forms)))
}

/// The premises of the rule at the node, with what their program variables were called before they
/// were numbered anew. It is `None` where the rule isn't allowed.
pub fn premises_of(
    alloc: Global,
    node: &Node,
    rule: &Rule,
) -> Result<Option<List<Renamed>>, NoMemory>
    ensures { IfOk result (λ r. r ≡ renamed_premises node.now rule.now) }
{
    let _links = node.links();
    match raws(alloc, node, rule)? {
        Some(raws) => normal_forms(alloc, raws),
        None => Ok(None),
    }
}

fn same<T: Exact>(a: &T, b: &T) -> bool
    ensures { IsTrue result ↔ (a.now ≡ b.now) }
{
    a == b
}

fn has_node(form: &Renamed, node: &Node) -> bool
    ensures { IsTrue result ↔ (form.now.node ≡ node.now) }
{
    same(&form.node, node)
}

/// Whether these are the nodes.
fn are_nodes_of(forms: &[Renamed], nodes: &[Shared<Node>]) -> bool
    ensures { IsTrue result ↔ (nodes_of forms.now ≡ nodes.now) }
{
    if forms.len() != nodes.len() {
        return false;
    }
    for place in 0..forms.len() {
        if !has_node(&forms[place], nodes[place].get()) {
            return false;
        }
    }
    true
}

/// Whether the rule is allowed at the node and leaves these premises.
pub fn is_step(
    alloc: Global,
    node: &Node,
    rule: &Rule,
    premises: &[Shared<Node>],
) -> Result<bool, NoMemory>
    ensures { IfOk result (λ b. IsTrue b ↔ (the_premises node.now rule.now ≡ Some premises.now)) }
{
    match premises_of(alloc, node, rule)? {
        Some(forms) => Ok(are_nodes_of(forms.as_slice(), premises)),
        None => Ok(false),
    }
}
