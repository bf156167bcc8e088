//! The rows that call a companion, in order of companion and then of match.

ghost use Rattle.std.specs.Prelude.{IfOk, OnOk, Some, length, option_map, slice_get, ◌++◌, ◌<◌, ◌≡◌};
ghost use Rattle.cyp_call.specs.CallRows.{call_rows, call_rules_at};
ghost use Rattle.cyp_call.specs.CallsOf.{calls_by, calls_of};

use cyp_heap::Node;
use cyp_step::{CallBy, Row, Rule, rows_of};
use cyp_term::{List, NoMemory};
use cyp_unify::{Match, matches};
use std::alloc::Global;

/// Adds the calls of the companion at this place by these matches.
fn add_calls(link: u8, found: List<Match>, rules: &mut Vec<Rule>) -> Result<(), NoMemory>
    ensures { OnOk result (rules.new.items ≡ rules.old.items ++ calls_by link found) }
{
    for one in found.into_vec() {
        let pairs = one.pairs;
        rules.push(Rule::ByCall(CallBy { link, pairs }))?;
    }
    Ok(())
}

/// Adds the calls of the companion at this place by each of its matches.
fn add_matches(alloc: Global, node: &Node, link: u8, rules: &mut Vec<Rule>) -> Result<(), NoMemory>
    requires { link < length node.now.links }
    ensures { OnOk result (option_map (λ l. rules.old.items ++ calls_of node.now link l) (slice_get node.now.links link) ≡ Some rules.new.items) }
{
    let found = matches(alloc, node, link)?;
    add_calls(link, found, rules)
}

/// How many companions the node has.
fn count_of_links(node: &Node) -> u8
    ensures { result ≡ length node.now.links }
{
    node.links().len() as u8
}

/// The calls of each companion by each of its matches.
fn call_rules(alloc: Global, node: &Node) -> Result<List<Rule>, NoMemory>
    ensures { IfOk result (λ rs. rs ≡ call_rules_at node.now 0 node.now.links) }
{
    let count = count_of_links(node);
    let mut rules = Vec::new(alloc);
    for link in 0..count {
        add_matches(alloc, node, link, &mut rules)?;
    }
    Ok(List::from_vec(rules))
}

/// The rows that call a companion above the node: each companion in order, and each of its matches in
/// lexicographic order of its pairing.
pub fn call_rows(alloc: Global, node: &Node) -> Result<List<Row>, NoMemory>
    ensures { IfOk result (λ rs. rs ≡ call_rows node.now) }
{
    let rules = call_rules(alloc, node)?;
    rows_of(alloc, node, rules)
}
