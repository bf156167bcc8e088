//! The rows of the rules that unfold nothing and guess nothing.

ghost use Rattle.std.specs.Prelude.{IfOk, OnOk, option_to_list, ◌++◌, ◌≡◌};
ghost use Rattle.cyp_flat.specs.FlatRows.{flat_rows, heap_rows, lone_rows};

use crate::places::{ChunkRule, add_rows, least_row};
use cyp_heap::Node;
use cyp_step::{Row, Rule, add_row, row};
use cyp_term::{List, NoMemory};
use std::alloc::Global;

/// The row that stands alone, where there is one: a contradiction, the end, or the least read that is
/// allowed. Each is tried only where none before it has a row.
fn lone_row(alloc: Global, node: &Node) -> Result<Option<Row>, NoMemory>
    ensures { IfOk result (λ r. option_to_list r ≡ lone_rows node.now) }
{
    if let Some(row) = row(alloc, node, Rule::ByInconsistent)? {
        return Ok(Some(row));
    }
    if let Some(row) = row(alloc, node, Rule::ByEmp)? {
        return Ok(Some(row));
    }
    least_row(alloc, node, ChunkRule::Read)
}

/// Adds the row, where there is one.
fn add_found(found: Option<Row>, table: &mut Vec<Row>) -> Result<(), NoMemory>
    ensures { OnOk result (table.new.items ≡ table.old.items ++ option_to_list found) }
{
    if let Some(row) = found {
        table.push(row)?;
    }
    Ok(())
}

/// Adds each frame, the write, the least free that is allowed, and the allocation.
fn add_heap_rows(alloc: Global, node: &Node, table: &mut Vec<Row>) -> Result<(), NoMemory>
    ensures { OnOk result (table.new.items ≡ table.old.items ++ heap_rows node.now) }
{
    add_rows(alloc, node, ChunkRule::Frame, table)?;
    add_rows(alloc, node, ChunkRule::Write, table)?;
    add_found(least_row(alloc, node, ChunkRule::Free)?, table)?;
    add_row(alloc, node, Rule::ByAlloc, table)
}

/// The rows of the rules that unfold nothing and guess nothing: one that stands alone, or else each
/// frame, the write, the least free that is allowed, and the allocation.
pub fn flat_rows(alloc: Global, node: &Node) -> Result<List<Row>, NoMemory>
    ensures { IfOk result (λ rs. rs ≡ flat_rows node.now) }
{
    let mut table = Vec::new(alloc);
    match lone_row(alloc, node)? {
        Some(row) => table.push(row)?,
        None => add_heap_rows(alloc, node, &mut table)?,
    }
    Ok(List::from_vec(table))
}
