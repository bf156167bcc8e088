//! The limits of a node.

ghost use Rattle.std.specs.Prelude.{◌≡◌, ◌&&◌, ◌+◌, IfOk, filter, length, nat_le, not, sum_by};
ghost use Rattle.cyp_heap.specs.Goals.{node_vars};
ghost use Rattle.cyp_heap.specs.Limits.{is_within_limits, node_units};
ghost use Rattle.cyp_term.specs.Terms.{is_set_var};

use crate::draft::Draft;
use crate::elements::are_elements_few;
use crate::units::{MOST, Measured, all_units, sum};
use crate::var_table::VarTable;
use cyp_heap::Goal;
use cyp_term::NoMemory;
use std::alloc::Global;

/// Whether chunks, literals and program variables are within limits.
fn are_lists_short(goal: &Goal) -> bool
    ensures { result ≡ (nat_le (length goal.now.pre.chunks) 16 && nat_le (length goal.now.post.chunks) 16 && nat_le (length goal.now.pure_pre) 40 && nat_le (length goal.now.pure_post) 40 && nat_le (length goal.now.program) 12) }
{
    goal.pre.chunks().len() <= 16
        && goal.post.chunks().len() <= 16
        && goal.pure_pre.len() <= 40
        && goal.pure_post.len() <= 40
        && goal.program.len() <= 12
}

fn are_units_few(draft: &Draft) -> bool
    ensures { result ≡ nat_le (node_units draft.now) 240 }
{
    sum(draft.goal.units(), all_units(draft.links.as_slice())) <= MOST
}

/// Whether no limit of a node is passed. The table has as many variables of each kind as the draft.
pub(crate) fn is_within_limits(
    alloc: Global,
    draft: &Draft,
    names: &VarTable,
) -> Result<bool, NoMemory>
    requires ints { length (filter (λ v. not (is_set_var v)) names.now) ≡ length (filter (λ v. not (is_set_var v)) (node_vars draft.now)) }
    requires sets { length (filter is_set_var names.now) ≡ length (filter is_set_var (node_vars draft.now)) }
    ensures { IfOk result (λ b. b ≡ is_within_limits draft.now) }
{
    let elements_are_few = are_elements_few(alloc, &draft.goal)?;
    Ok(
        are_lists_short(&draft.goal)
            && names.count_ints() <= 32
            && names.count_sets() <= 12
            && elements_are_few
            && draft.links.len() <= 4
            && are_units_few(draft),
    )
}
