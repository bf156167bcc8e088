//! The stores that a call needs before it.

ghost use Rattle.std.specs.Prelude.{IfOk, filter, ◌≡◌};
ghost use Rattle.std.specs.List.{list_all};
ghost use Rattle.cyp_goal.specs.Facts.{facts};
ghost use Rattle.cyp_step.specs.Mends.{is_needed, is_writable, writes_for};

use crate::existentials::is_program_expr;
use crate::flat_goals::cell_in;
use crate::showing::follows;
use cyp_goal::facts;
use cyp_heap::{Goal, Node};
use cyp_term::{List, Lit, NoMemory};
use cyp_unify::{Match, Mend};
use std::alloc::Global;

/// Whether the value isn't shown equal to the cell's content.
fn is_needed(alloc: Global, goal: &Goal, known: &[Lit], mend: Mend) -> Result<bool, NoMemory>
    requires { known.now ≡ facts goal.now }
    ensures { IfOk result (λ b. b ≡ is_needed goal.now mend) }
{
    let Some(cell) = cell_in(goal.pre.chunks(), mend.cell as usize) else {
        return Ok(false);
    };
    let lits = [Lit::Eq(mend.value, cell.content)];
    Ok(!follows(alloc, known, &lits)?)
}

/// The stores whose value isn't shown to be there.
fn needed(alloc: Global, goal: &Goal, known: &[Lit], mends: &[Mend]) -> Result<List<Mend>, NoMemory>
    requires { known.now ≡ facts goal.now }
    ensures { IfOk result (λ ms. ms ≡ filter (is_needed goal.now) mends.now) }
{
    let mut kept = Vec::new(alloc);
    for mend in mends {
        if is_needed(alloc, goal, known, *mend)? {
            kept.push(*mend)?;
        }
    }
    Ok(List::from_vec(kept))
}

/// Whether the address of the cell and the value are program expressions.
fn is_writable(goal: &Goal, mend: Mend) -> bool
    ensures { result ≡ is_writable goal.now mend }
{
    match cell_in(goal.pre.chunks(), mend.cell as usize) {
        Some(cell) => is_program_expr(goal, cell.at) && is_program_expr(goal, mend.value),
        None => false,
    }
}

fn are_writable(goal: &Goal, mends: &[Mend]) -> bool
    ensures { result ≡ list_all (is_writable goal.now) mends.now }
{
    for mend in mends {
        if !is_writable(goal, *mend) {
            return false;
        }
    }
    true
}

/// The stores that a call needs, where the goal's facts are known.
pub(crate) fn writes(
    alloc: Global,
    goal: &Goal,
    known: &[Lit],
    found: &Match,
) -> Result<Option<List<Mend>>, NoMemory>
    requires { known.now ≡ facts goal.now }
    ensures { IfOk result (λ w. w ≡ writes_for goal.now found.now) }
{
    let kept = needed(alloc, goal, known, found.mends.as_slice())?;
    if !are_writable(goal, kept.as_slice()) {
        return Ok(None);
    }
    Ok(Some(kept))
}

/// The stores that a call by this match needs before it: those whose value isn't shown to be in the
/// cell. There are none to be had where the program can't do one of them.
pub fn writes_for(alloc: Global, node: &Node, found: &Match) -> Result<Option<List<Mend>>, NoMemory>
    ensures { IfOk result (λ w. w ≡ writes_for node.now.goal found.now) }
{
    let goal = node.goal();
    let known = facts(alloc, goal)?;
    writes(alloc, goal, known.as_slice(), found)
}
