//! The rows that unfold an instance of the precondition.

ghost use Rattle.std.specs.Prelude.{IfOk, OnOk, length, map, ◌++◌, ◌≡◌, ◌≤◌};
ghost use Rattle.cyp_step.specs.declared.rule.Rule.TheVariants.{ByOpen};
ghost use Rattle.cyp_unfold.specs.OpenPlaces.{is_openable, opening_at};
ghost use Rattle.cyp_unfold.specs.UnfoldRows.{open_rows, openable};

use cyp_heap::{Chunk, Node};
use cyp_step::{Row, Rule, rows_of};
use cyp_term::{List, NoMemory};
use std::alloc::Global;

/// Whether the chunk is an instance whose tag is below the limit.
fn is_openable(limit: u8, chunk: &Chunk) -> bool
    ensures { result ≡ is_openable limit chunk.now }
{
    match chunk {
        Chunk::Inst(inst) => inst.tag < limit,
        Chunk::Block(_) | Chunk::Cell(_) => false,
    }
}

/// Adds the rule that opens the chunk at the place, where it is an instance whose tag is below the
/// limit.
fn add_opening(limit: u8, place: u8, chunk: &Chunk, rules: &mut Vec<Rule>) -> Result<(), NoMemory>
    ensures { OnOk result (rules.new.items ≡ rules.old.items ++ opening_at limit place chunk.now) }
{
    if is_openable(limit, chunk) {
        rules.push(Rule::ByOpen(place))?;
    }
    Ok(())
}

/// The rules that open an instance whose tag is below the limit, in the order of the places.
fn openings(alloc: Global, limit: u8, chunks: &[Chunk]) -> Result<List<Rule>, NoMemory>
    requires { length chunks.now ≤ 16 }
    ensures { IfOk result (λ rs. rs ≡ map ByOpen (openable limit 0 chunks.now)) }
{
    let mut rules = Vec::new(alloc);
    for place in 0..chunks.len() {
        add_opening(limit, place as u8, &chunks[place], &mut rules)?;
    }
    Ok(List::from_vec(rules))
}

/// The rows that unfold an instance of the precondition whose tag is below the limit, in the order of
/// the places.
pub fn open_rows(alloc: Global, node: &Node, limit: u8) -> Result<List<Row>, NoMemory>
    ensures { IfOk result (λ rs. rs ≡ open_rows node.now limit) }
{
    let rules = openings(alloc, limit, node.goal().pre.chunks())?;
    rows_of(alloc, node, rules)
}
