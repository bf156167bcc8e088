//! Rows of the move table.

ghost use Rattle.std.specs.Prelude.{IfOk, OnOk, ◌++◌, ◌≡◌, ◌∷◌, []};
ghost use Rattle.std.specs.List.{All, list_any};
ghost use Rattle.cyp_heap.specs.declared.goal.Node.{Node as TheNode};
ghost use Rattle.cyp_step.specs.Rows.{row, rows};
ghost use Rattle.cyp_step.specs.Shown.{dead};
ghost use Rattle.cyp_step.specs.Step.{nodes_of};
ghost use Rattle.cyp_step.specs.Trying.{tried};

use crate::rule::{Row, Rule};
use crate::showing::dead;
use crate::steps::premises_of;
use cyp_goal::Renamed;
use cyp_heap::Node;
use cyp_term::{List, NoMemory, Shared};
use std::alloc::Global;

/// What comes of a rule at a node.
#[derive(Debug, Drop)]
pub enum Tried {
    /// The rule isn't allowed.
    NotAllowed,
    /// The rule is allowed, and one of its premises is dead.
    Dead,
    /// The rule is allowed, and none of its premises is dead.
    Allowed(Row),
}

/// The nodes without what their program variables were called.
fn nodes_of(alloc: Global, renamed: List<Renamed>) -> Result<List<Shared<Node>>, NoMemory>
    ensures { IfOk result (λ ns. ns ≡ nodes_of renamed) }
{
    let mut nodes = Vec::with_capacity(alloc, renamed.len())?;
    for premise in renamed.into_vec() {
        nodes.push(Shared::new(alloc, premise.node)?)?;
    }
    Ok(List::from_vec(nodes))
}

/// Whether the goal of one of the nodes is dead.
fn has_dead(alloc: Global, nodes: &[Shared<Node>]) -> Result<bool, NoMemory>
    ensures { IfOk result (λ b. b ≡ list_any (λ (m : TheNode). dead m.goal) nodes.now) }
{
    for node in nodes {
        if dead(alloc, node.get().goal())? {
            return Ok(true);
        }
    }
    Ok(false)
}

/// Tries a rule at a node.
pub fn try_rule(alloc: Global, node: &Node, rule: Rule) -> Result<Tried, NoMemory>
    ensures { IfOk result (λ t. t ≡ tried node.now rule) }
{
    let Some(renamed) = premises_of(alloc, node, &rule)? else {
        return Ok(Tried::NotAllowed);
    };
    let premises = nodes_of(alloc, renamed)?;
    if has_dead(alloc, premises.as_slice())? {
        return Ok(Tried::Dead);
    }
    Ok(Tried::Allowed(Row { rule, premises }))
}

/// The row of a rule, unless the rule isn't allowed or one of its premises is dead.
pub fn row(alloc: Global, node: &Node, rule: Rule) -> Result<Option<Row>, NoMemory>
    ensures { IfOk result (λ r. r ≡ row node.now rule) }
{
    match try_rule(alloc, node, rule)? {
        Tried::Allowed(row) => Ok(Some(row)),
        Tried::Dead | Tried::NotAllowed => Ok(None),
    }
}

/// Adds the row of a rule, where it has one.
pub fn add_row(alloc: Global, node: &Node, rule: Rule, table: &mut Vec<Row>) -> Result<(), NoMemory>
    ensures { OnOk result (table.new.items ≡ table.old.items ++ rows node.now (rule ∷ [])) }
{
    if let Some(row) = row(alloc, node, rule)? {
        table.push(row)?;
    }
    Ok(())
}

/// The rows of the rules in order, leaving out each rule that has no row.
pub fn rows_of(alloc: Global, node: &Node, rules: List<Rule>) -> Result<List<Row>, NoMemory>
    ensures { IfOk result (λ rs. rs ≡ rows node.now rules) }
{
    let mut table = Vec::new(alloc);
    for rule in rules.into_vec() {
        add_row(alloc, node, rule, &mut table)?;
    }
    Ok(List::from_vec(table))
}
