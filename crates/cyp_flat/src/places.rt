//! The rules that use a chunk of the precondition, place by place.

ghost use Rattle.std.specs.Prelude.{IfOk, OnOk, length, map, option_to_list, ◌++◌, ◌≡◌, ◌≤◌};
ghost use Rattle.cyp_flat.specs.ChunkRules.{rule_at};
ghost use Rattle.cyp_step.specs.Rows.{least_allowed, pre_places, rows};

use cyp_heap::Node;
use cyp_step::{Row, Rule, Tried, add_row, try_rule};
use cyp_term::NoMemory;
use std::alloc::Global;

/// What a rule does with a chunk of the precondition.
#[derive(Clone, Copy)]
pub(crate) enum ChunkRule {
    Read,
    Frame,
    Write,
    Free,
}

impl ChunkRule {
    /// The rule at the chunk with this place.
    fn at(self, place: u8) -> Rule
        ensures { result ≡ rule_at self place }
    {
        match self {
            ChunkRule::Read => Rule::ByRead(place),
            ChunkRule::Frame => Rule::ByFrame(place),
            ChunkRule::Write => Rule::ByWrite(place),
            ChunkRule::Free => Rule::ByFree(place),
        }
    }
}

/// How many chunks the precondition has.
fn count_of_pre(node: &Node) -> u8
    ensures { result ≡ length node.now.goal.pre.chunks }
{
    node.goal().pre.chunks().len() as u8
}

/// Adds the row at each place that has one, in order.
pub(crate) fn add_rows(
    alloc: Global,
    node: &Node,
    by: ChunkRule,
    table: &mut Vec<Row>,
) -> Result<(), NoMemory>
    ensures { OnOk result (table.new.items ≡ table.old.items ++ rows node.now (map (rule_at by) (pre_places node.now))) }
{
    let count = count_of_pre(node);
    for place in 0..count {
        add_row(alloc, node, by.at(place), table)?;
    }
    Ok(())
}

/// The row at the least place where the rule is allowed. There is none where a premise is dead there,
/// whatever comes of later places.
pub(crate) fn least_row(alloc: Global, node: &Node, by: ChunkRule) -> Result<Option<Row>, NoMemory>
    ensures { IfOk result (λ r. option_to_list r ≡ rows node.now (least_allowed node.now (map (rule_at by) (pre_places node.now)))) }
{
    let count = count_of_pre(node);
    for place in 0..count {
        match try_rule(alloc, node, by.at(place))? {
            Tried::Allowed(row) => return Ok(Some(row)),
            Tried::Dead => return Ok(None),
            Tried::NotAllowed => {}
        }
    }
    Ok(None)
}
