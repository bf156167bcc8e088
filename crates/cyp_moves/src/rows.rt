ghost use Rattle.std.specs.Prelude.{◌≡◌, IfOk};
ghost use Rattle.cyp_moves.specs.BuiltRows.{built_rows};

use cyp_flat::{flat_rows, pick_rows};
use cyp_heap::Node;
use cyp_step::Row;
use cyp_term::{List, NoMemory};
use std::alloc::Global;

/// The rows of the table that are built. A guess is made only where there is no other row.
pub(crate) fn built_rows(alloc: Global, node: &Node) -> Result<List<Row>, NoMemory>
    ensures { IfOk result (λ rs. rs ≡ built_rows node.now) }
{
    let rows = flat_rows(alloc, node)?;
    if rows.len() == 0 {
        return pick_rows(alloc, node);
    }
    Ok(rows)
}
