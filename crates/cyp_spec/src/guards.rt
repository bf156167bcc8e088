ghost use Rattle.std.specs.Prelude.{[], IfOk, IsTrue, ◌∷◌, ◌≡◌};
ghost use Rattle.std.specs.List.{All};
ghost use Rattle.cyp_heap.specs.PredsFormed.{overlap};
ghost use Rattle.cyp_term.specs.Integers.{is_int_lit};
ghost use Rattle.cyp_names.specs.PredFaults.{overlaps};

use cyp_diff::solve;
use cyp_term::{Copied, Lit, NoMemory};
use std::alloc::Global;

/// Both literals.
fn pair(alloc: Global, one: &Lit, other: &Lit) -> Result<Vec<Lit>, NoMemory>
    ensures { IfOk result (λ v. v.items ≡ one.now ∷ other.now ∷ []) }
{
    let mut both = Vec::new(alloc);
    both.push(one.copy(alloc)?)?;
    both.push(other.copy(alloc)?)?;
    Ok(both)
}

/// Whether two guards, which compare integers, can both hold.
fn can_both_hold(alloc: Global, one: &Lit, other: &Lit) -> Result<bool, NoMemory>
    requires one { IsTrue (is_int_lit one.now) }
    requires other { IsTrue (is_int_lit other.now) }
    ensures { IfOk result (λ b. b ≡ overlap one.now other.now) }
{
    let both = pair(alloc, one, other)?;
    let solution = solve(alloc, both.as_slice())?;
    Ok(solution.is_some())
}

/// Whether the guard can hold beside one of these.
pub(crate) fn overlaps(alloc: Global, seen: &[Lit], guard: &Lit) -> Result<bool, NoMemory>
    requires seen { All (λ g. IsTrue (is_int_lit g)) seen.now }
    requires guard { IsTrue (is_int_lit guard.now) }
    ensures { IfOk result (λ b. b ≡ overlaps seen.now guard.now) }
{
    for earlier in seen {
        if can_both_hold(alloc, earlier, guard)? {
            return Ok(true);
        }
    }
    Ok(false)
}
