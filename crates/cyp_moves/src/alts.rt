ghost use Rattle.std.specs.Prelude.{◌≡◌, IfOk, map, take};
ghost use Rattle.std.specs.List.{All};
ghost use Rattle.cyp_moves.specs.BuiltRows.{HasFewPremises};
ghost use Rattle.cyp_moves.specs.Moves.{priced};

use crate::cost::cost_of;
use cyp_heap::Node;
use cyp_space::Alt;
use cyp_step::{Row, Rule};
use cyp_term::{List, NoMemory};
use std::alloc::Global;

/// The most moves of a node.
const MOST_MOVES: usize = 48;

/// The row with its cost.
fn priced(row: Row) -> Alt<Rule, Node>
    requires { HasFewPremises row }
    ensures { result ≡ priced row }
{
    let Row { rule, premises } = row;
    let cost = cost_of(&rule);
    Alt::new(rule, cost, premises)
}

/// The rows with their costs.
fn priced_rows(alloc: Global, rows: List<Row>) -> Result<List<Alt<Rule, Node>>, NoMemory>
    requires { All HasFewPremises rows }
    ensures { IfOk result (λ alts. alts ≡ map priced rows) }
{
    let mut alts = Vec::new(alloc);
    for row in rows.into_vec() {
        alts.push(priced(row))?;
    }
    Ok(List::from_vec(alts))
}

/// The first 48 rows with their costs.
pub(crate) fn first_priced(
    alloc: Global,
    rows: List<Row>,
) -> Result<List<Alt<Rule, Node>>, NoMemory>
    requires { All HasFewPremises rows }
    ensures { IfOk result (λ alts. alts ≡ map priced (take 48 rows)) }
{
    let mut rows = rows.into_vec();
    rows.truncate(MOST_MOVES);
    priced_rows(alloc, List::from_vec(rows))
}
