ghost use Rattle.std.specs.Prelude.{[], filter, not, ◌∷◌, ◌≡◌, ◌++◌, IfOk};
ghost use Rattle.std.specs.List.{list_any};
ghost use Rattle.cyp_goal.specs.Facts.{facts};
ghost use Rattle.cyp_heap.specs.Chunks.{is_inst};
ghost use Rattle.cyp_step.specs.Following.{follows};
ghost use Rattle.cyp_step.specs.NodeGoals.{IsGoalOfNode};
ghost use Rattle.cyp_step.specs.Shown.{dead, is_open, shown};
ghost use Rattle.cyp_term.specs.Entailment.{satisfiable};

use crate::existentials::is_open;
use cyp_goal::facts;
use cyp_heap::{Chunk, Goal};
use cyp_pure::{entails, fits, satisfiable};
use cyp_term::{Copied, Lit, NoMemory};
use std::alloc::Global;
use std::slice;

/// Whether the literals follow from the facts, and both fit.
pub(crate) fn follows(alloc: Global, facts: &[Lit], lits: &[Lit]) -> Result<bool, NoMemory>
    ensures { IfOk result (λ b. b ≡ follows facts.now lits.now) }
{
    if !fits(alloc, facts, lits)? {
        return Ok(false);
    }
    entails(alloc, facts, lits)
}

/// Whether the literals follow from the goal's facts, and both fit.
pub fn shown(alloc: Global, goal: &Goal, lits: &[Lit]) -> Result<bool, NoMemory>
    ensures { IfOk result (λ b. b ≡ shown goal.now lits.now) }
{
    let facts = facts(alloc, goal)?;
    follows(alloc, facts.as_slice(), lits)
}

/// Whether the goal's facts can be true.
pub(crate) fn can_hold(alloc: Global, goal: &Goal) -> Result<bool, NoMemory>
    requires { IsGoalOfNode goal.now }
    ensures { IfOk result (λ b. b ≡ satisfiable (facts goal.now)) }
{
    let facts = facts(alloc, goal)?;
    satisfiable(alloc, facts.as_slice())
}

/// Whether the goal's facts and its pure postcondition can be true together.
fn can_end(alloc: Global, goal: &Goal) -> Result<bool, NoMemory>
    requires { IsGoalOfNode goal.now }
    ensures { IfOk result (λ b. b ≡ satisfiable (facts goal.now ++ goal.now.pure_post)) }
{
    let mut lits = facts(alloc, goal)?;
    lits.append(goal.pure_post.copy(alloc)?)?;
    satisfiable(alloc, lits.as_slice())
}

pub(crate) fn has_inst(chunks: &[Chunk]) -> bool
    ensures { result ≡ list_any is_inst chunks.now }
{
    chunks.iter().any(|chunk| matches!(chunk, Chunk::Inst(_)))
}

/// Whether a literal of the pure postcondition without an existential isn't shown.
fn is_missing_some(alloc: Global, goal: &Goal) -> Result<bool, NoMemory>
    ensures { IfOk result (λ b. b ≡ list_any (λ l. not (shown goal.now (l ∷ []))) (filter (λ l. not (is_open goal.now l)) goal.now.pure_post)) }
{
    let facts = facts(alloc, goal)?;
    for lit in goal.pure_post.as_slice() {
        if !is_open(goal, lit) && !follows(alloc, facts.as_slice(), slice::from_ref(lit))? {
            return Ok(true);
        }
    }
    Ok(false)
}

/// Whether the goal of a node can't be met though its facts are satisfiable.
pub fn dead(alloc: Global, goal: &Goal) -> Result<bool, NoMemory>
    requires { IsGoalOfNode goal.now }
    ensures { IfOk result (λ b. b ≡ dead goal.now) }
{
    if !can_hold(alloc, goal)? {
        return Ok(false);
    }
    if !can_end(alloc, goal)? {
        return Ok(true);
    }
    if has_inst(goal.pre.chunks()) {
        return Ok(false);
    }
    is_missing_some(alloc, goal)
}
