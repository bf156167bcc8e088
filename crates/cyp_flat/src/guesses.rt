//! The rows that guess the first existential.

ghost use Rattle.std.specs.Prelude.{IfOk, ◌≡◌};
ghost use Rattle.cyp_flat.specs.FlatRows.{pick_rows};

use crate::candidates::candidates;
use cyp_heap::Node;
use cyp_step::{Row, Rule, add_row};
use cyp_term::{List, NoMemory};
use std::alloc::Global;

/// The rows that guess the first existential, for each candidate in order of number.
pub fn pick_rows(alloc: Global, node: &Node) -> Result<List<Row>, NoMemory>
    ensures { IfOk result (λ rs. rs ≡ pick_rows node.now) }
{
    let candidates = candidates(alloc, node.goal())?;
    let mut table = Vec::new(alloc);
    for var in candidates.as_slice() {
        add_row(alloc, node, Rule::ByPick(*var), &mut table)?;
    }
    Ok(List::from_vec(table))
}
