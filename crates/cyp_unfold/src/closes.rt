//! The rows that fold the focus, the first chunk of the postcondition.

ghost use Rattle.std.specs.Prelude.{IfOk, length, map, slice_get, ◌≡◌};
ghost use Rattle.cyp_pred.specs.Unfold.{clauses_of, count_from};
ghost use Rattle.cyp_step.specs.declared.rule.Rule.TheVariants.{ByClose};
ghost use Rattle.cyp_unfold.specs.UnfoldRows.{closable, close_rows};
ghost use Rattle.cyp_unify.specs.Frames.{focus};

use cyp_heap::{Chunk, InstOf, Node};
use cyp_step::{Row, Rule, rows_of};
use cyp_term::{List, NoMemory};
use std::alloc::Global;

/// How many clauses the instance's predicate has.
fn clause_count(node: &Node, inst: &InstOf) -> u8
    ensures { result ≡ length (clauses_of (slice_get node.now.preds.list inst.now.pred)) }
{
    match node.preds().get().list().get(inst.pred as usize) {
        Some(pred) => pred.clauses.len() as u8,
        None => 0,
    }
}

/// By how many clauses the focus may be folded, where its tag is below the limit.
fn closable_count(node: &Node, limit: u8) -> u8
    ensures { count_from 0 result ≡ closable node.now limit (focus node.now.goal) }
{
    let Some(Chunk::Inst(inst)) = node.goal().post.chunks().first() else {
        return 0;
    };
    if inst.tag >= limit {
        return 0;
    }
    clause_count(node, inst)
}

/// The rules that fold the focus by this many clauses.
fn closings(alloc: Global, count: u8) -> Result<List<Rule>, NoMemory>
    ensures { IfOk result (λ rs. rs ≡ map ByClose (count_from 0 count)) }
{
    let mut rules = Vec::new(alloc);
    for clause in 0..count {
        rules.push(Rule::ByClose(clause))?;
    }
    Ok(List::from_vec(rules))
}

/// The rows that fold the focus by one of its clauses in their order, where its tag is below the
/// limit.
pub fn close_rows(alloc: Global, node: &Node, limit: u8) -> Result<List<Row>, NoMemory>
    ensures { IfOk result (λ rs. rs ≡ close_rows node.now limit) }
{
    let rules = closings(alloc, closable_count(node, limit))?;
    rows_of(alloc, node, rules)
}
