//! The goal after the focus, the first chunk of the postcondition, is framed.

ghost use Rattle.std.specs.Prelude.{IfOk, length, ◌<◌, ◌≡◌, ◌≤◌};
ghost use Rattle.cyp_step.specs.FlatGoals.{after_frame, can_be_framed, framed_goal, lits_at};
ghost use Rattle.cyp_unify.specs.Frames.{frame_pairs};

use crate::existentials::is_open;
use crate::showing::follows;
use cyp_goal::facts;
use cyp_heap::Goal;
use cyp_term::{Copied, List, Lit, NoMemory};
use cyp_unify::{Pair, frame_pairs};
use std::alloc::Global;
use std::slice;

/// The literals of the pair with the chunk at the place.
fn lits_at(alloc: Global, pairs: &[Pair], place: u8) -> Result<Option<List<Lit>>, NoMemory>
    ensures { IfOk result (λ ls. ls ≡ lits_at place pairs.now) }
{
    for pair in pairs {
        if pair.pre == place {
            return Ok(Some(pair.lits.copy(alloc)?));
        }
    }
    Ok(None)
}

/// What makes the focus equal to the chunk at the place.
fn frame_lits(alloc: Global, goal: &Goal, place: u8) -> Result<Option<List<Lit>>, NoMemory>
    requires { length goal.now.pre.chunks ≤ 16 }
    ensures { IfOk result (λ ls. ls ≡ lits_at place (frame_pairs goal.now)) }
{
    let pairs = frame_pairs(alloc, goal)?;
    lits_at(alloc, pairs.as_slice(), place)
}

/// Whether each of the literals has an existential or is shown.
fn can_be_framed(alloc: Global, goal: &Goal, lits: &[Lit]) -> Result<bool, NoMemory>
    ensures { IfOk result (λ b. b ≡ can_be_framed goal.now lits.now) }
{
    let facts = facts(alloc, goal)?;
    for lit in lits {
        if !is_open(goal, lit) && !follows(alloc, facts.as_slice(), slice::from_ref(lit))? {
            return Ok(false);
        }
    }
    Ok(true)
}

/// The goal without the focus and the chunk at the place, where the literals are left to show.
fn framed_goal(alloc: Global, goal: &Goal, place: u8, lits: List<Lit>) -> Result<Goal, NoMemory>
    requires pre { place < length goal.now.pre.chunks }
    requires post { 0 < length goal.now.post.chunks }
    ensures { IfOk result (λ g. g ≡ framed_goal goal.now place lits) }
{
    let mut framed = goal.copy(alloc)?;
    let _chunk = framed.pre.remove(place);
    let _focus = framed.post.remove(0);
    framed.pure_post.append(lits)?;
    Ok(framed)
}

/// The goal after the focus is framed by the chunk at the place.
pub(crate) fn after_frame(alloc: Global, goal: &Goal, place: u8) -> Result<Option<Goal>, NoMemory>
    requires { length goal.now.pre.chunks ≤ 16 }
    ensures { IfOk result (λ g. g ≡ after_frame goal.now place (lits_at place (frame_pairs goal.now))) }
{
    let Some(lits) = frame_lits(alloc, goal, place)? else {
        return Ok(None);
    };
    if !can_be_framed(alloc, goal, lits.as_slice())? {
        return Ok(None);
    }
    Ok(Some(framed_goal(alloc, goal, place, lits)?))
}
