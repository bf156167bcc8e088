ghost use Rattle.std.specs.Prelude.{◌≡◌, ◌<◌, IfOk, length};
ghost use Rattle.cyp_measure.specs.Decrease.{decreases as the_decreases, falls_at as the_fall_at};

use cyp_term::{List, Lit, NoMemory, Term};
use std::alloc::Global;

/// The later tuple isn't above the earlier one before the place, and is below it there.
#[tactic(auto, using(crate::proofs::Falls::one_more, crate::proofs::Falls::last_one))]
fn fall_at(alloc: Global, old: &[Term], new: &[Term], place: usize) -> Result<List<Lit>, NoMemory>
    requires old { place < length old.now }
    requires new { place < length new.now }
    ensures { IfOk result (λ lits. lits ≡ the_fall_at place old.now new.now) }
{
    let mut lits = Vec::new(alloc);
    for before in 0..place {
        lits.push(Lit::Le(new[before], old[before]))?;
    }
    lits.push(Lit::Lt(new[place], old[place]))?;
    Ok(List::from_vec(lits))
}

/// The ways in which a measure falls, from the old tuple to the new one: for each place, that
/// nothing rises before it and the number there falls.
#[tactic(auto, using(crate::proofs::Falls::entry_more))]
pub fn decreases(alloc: Global, old: &[Term], new: &[Term]) -> Result<List<List<Lit>>, NoMemory>
    requires { length old.now ≡ length new.now }
    ensures { IfOk result (λ ways. ways ≡ the_decreases old.now new.now) }
{
    let mut ways = Vec::new(alloc);
    for place in 0..old.len() {
        ways.push(fall_at(alloc, old, new, place)?)?;
    }
    Ok(List::from_vec(ways))
}
