ghost use Rattle.std.specs.Prelude.{◌≡◌, ℕ, ◌≤◌, ◌++◌, ◌↔◌, pos, IfOk, IsTrue, length};
ghost use Rattle.cyp_term.specs.Regions.{HasSets, all_set_vars, all_terms, class_by, regions_fit};
ghost use Rattle.cyp_sets.specs.Asking.{AreSets};
ghost use Rattle.cyp_sets.specs.Dealing.{Fits};

use crate::dealing::deal;
use crate::names::Names;
use crate::region_lists::{class_regions, regions_of, wants_left};
use crate::said::Said;
use cyp_term::{Lit, NoMemory};
use std::alloc::Global;

/// Whether each class has a region that the rules allow it, so that all that is wanted is shown.
fn fits(alloc: Global, said: &Said, count: u16, classes: usize) -> Result<bool, NoMemory>
    requires { classes ≤ 6 }
    ensures { IfOk result (λ b. IsTrue b ↔ Fits said.now.rules.items said.now.wants.items count classes) }
{
    let rules = said.rules.as_slice();
    match class_regions(alloc, rules, count, classes)? {
        None => Ok(false),
        Some(mut lists) => {
            let outside = regions_of(alloc, rules, count, 0)?;
            let left = wants_left(alloc, said.wants.as_slice(), outside.as_slice())?;
            deal(alloc, left.as_slice(), &mut lists)
        }
    }
}

/// Whether finite sets of integers make the set literals true where the element terms, in order of first occurrence, have
/// values of these classes: equal numbers mean equal values, different numbers different values.
pub fn regions(alloc: Global, lits: &[Lit], classes: &[u8]) -> Result<bool, NoMemory>
    requires sets { AreSets lits.now }
    requires few_vars { length (all_set_vars lits.now) ≤ 12 }
    requires few_terms { length (all_terms lits.now) ≤ 6 }
    requires classes { length classes.now ≡ length (all_terms lits.now) }
    ensures test { IfOk result (λ b. b ≡ regions_fit (class_by (all_terms lits.now) classes.now) lits.now) }
    ensures exact { IfOk result (λ b. IsTrue b ↔ HasSets (λ t. pos (class_by (all_terms lits.now) classes.now t)) lits.now) }
{
    regions_with(alloc, lits, &[], classes)
}

/// As `regions`, for the literals of both lists; the classes follow first occurrence in `lits` and then in `more`.
pub fn regions_with(
    alloc: Global,
    lits: &[Lit],
    more: &[Lit],
    classes: &[u8],
) -> Result<bool, NoMemory>
    requires sets { AreSets (lits.now ++ more.now) }
    requires few_vars { length (all_set_vars (lits.now ++ more.now)) ≤ 12 }
    requires few_terms { length (all_terms (lits.now ++ more.now)) ≤ 6 }
    requires classes { length classes.now ≡ length (all_terms (lits.now ++ more.now)) }
    ensures test { IfOk result (λ b. b ≡ regions_fit (class_by (all_terms (lits.now ++ more.now)) classes.now) (lits.now ++ more.now)) }
    ensures exact { IfOk result (λ b. IsTrue b ↔ HasSets (λ t. pos (class_by (all_terms (lits.now ++ more.now)) classes.now t)) (lits.now ++ more.now)) }
{
    let names = Names::of(alloc, lits, more, classes)?;
    let said = Said::of(alloc, &names, lits, more)?;
    fits(alloc, &said, names.region_count(), names.kind_count())
}
