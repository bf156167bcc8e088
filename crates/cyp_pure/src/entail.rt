ghost use Rattle.std.specs.Prelude.{[], ◌≡◌, ◌∷◌, ◌++◌, ◌↔◌, Contains, IfOk, IsTrue};
ghost use Rattle.cyp_term.specs.Entailment.{entailed, satisfiable};
ghost use Rattle.cyp_term.specs.Integers.{int_lits, is_int_lit};
ghost use Rattle.cyp_term.specs.Meaning.{Entails, Satisfiable};
ghost use Rattle.cyp_term.specs.Regions.{set_lits};
ghost use Rattle.cyp_term.specs.Terms.{negated};
ghost use Rattle.cyp_pure.specs.Dealing.{IsStart};
ghost use Rattle.cyp_pure.specs.Fits.{fits};
ghost use Rattle.cyp_pure.specs.Parts.{IsParted};
ghost use Rattle.cyp_pure.specs.Questions.{CanBeAsked, CanBeTrue};

use crate::dealing::{Dealing, Question, deal};
use crate::limits::add_all_elements;
use crate::parted::{Parted, parted_of};
use crate::sorts::compares_ints;
use cyp_diff::solve_with;
use cyp_term::{Copied, List, Lit, NoMemory};
use std::alloc::Global;

/// The dealing of no terms.
fn start(alloc: Global, more: &[Lit]) -> Result<Dealing, NoMemory>
    ensures { IfOk result (IsStart more.now) }
{
    let mut facts = Vec::new(alloc);
    for lit in more {
        facts.push(lit.copy(alloc)?)?;
    }
    Ok(Dealing {
        classes: List::from_vec(Vec::new(alloc)),
        count: 0,
        facts: List::from_vec(facts),
    })
}

/// Whether integers and sets make the parted literals and more of each kind true.
fn can_be_true(
    alloc: Global,
    parted: &Parted,
    more: &[Lit],
    more_sets: &[Lit],
) -> Result<bool, NoMemory>
    requires { CanBeAsked (parted.now.ints ++ more.now) (parted.now.sets ++ more_sets.now) }
    ensures { IfOk result (λ r. IsTrue r ↔ CanBeTrue (parted.now.ints ++ more.now) (parted.now.sets ++ more_sets.now)) }
{
    let ints = parted.ints.as_slice();
    let sets = parted.sets.as_slice();
    if solve_with(alloc, ints, more)?.is_none() {
        return Ok(false);
    }
    if sets.is_empty() && more_sets.is_empty() {
        return Ok(true);
    }
    let mut terms = Vec::new(alloc);
    add_all_elements(&mut terms, sets)?;
    add_all_elements(&mut terms, more_sets)?;
    let question = Question {
        ints,
        more,
        sets,
        more_sets,
        terms: terms.as_slice(),
    };
    deal(alloc, &question, &start(alloc, more)?)
}

/// Whether something makes the parted literals true and this one false.
fn can_be_false(alloc: Global, parted: &Parted, lit: &Lit, is_int: bool) -> Result<bool, NoMemory>
    requires kind { is_int ≡ is_int_lit lit.now }
    requires asked { CanBeAsked (parted.now.ints ++ int_lits (negated lit.now ∷ [])) (parted.now.sets ++ set_lits (negated lit.now ∷ [])) }
    ensures { IfOk result (λ r. IsTrue r ↔ CanBeTrue (parted.now.ints ++ int_lits (negated lit.now ∷ [])) (parted.now.sets ++ set_lits (negated lit.now ∷ []))) }
{
    let opposite = [lit.copy(alloc)?.negated()];
    if is_int {
        can_be_true(alloc, parted, &opposite, &[])
    } else {
        can_be_true(alloc, parted, &[], &opposite)
    }
}

fn stands_in(lit: &Lit, lits: &[Lit]) -> bool
    ensures { IsTrue result → Contains lits.now lit.now }
{
    for other in lits {
        if other == lit {
            return true;
        }
    }
    false
}

/// Whether whatever makes all of `a` true makes the literal true.
fn follows(
    alloc: Global,
    a: &[Lit],
    parted: &Parted,
    lit: &Lit,
    is_int: bool,
) -> Result<bool, NoMemory>
    requires parted { IsParted a.now parted.now }
    requires kind { is_int ≡ is_int_lit lit.now }
    requires asked { CanBeAsked (parted.now.ints ++ int_lits (negated lit.now ∷ [])) (parted.now.sets ++ set_lits (negated lit.now ∷ [])) }
    ensures { IfOk result (λ r. IsTrue r ↔ Entails a.now (lit.now ∷ [])) }
{
    if stands_in(lit, a) {
        return Ok(true);
    }
    Ok(!can_be_false(alloc, parted, lit, is_int)?)
}

/// Whether some integers and finite sets make all the literals true, of a list that fits.
pub fn satisfiable(alloc: Global, a: &[Lit]) -> Result<bool, NoMemory>
    requires { IsTrue (fits a.now []) }
    ensures exact { IfOk result (λ r. IsTrue r ↔ Satisfiable a.now) }
    ensures test { IfOk result (λ r. r ≡ satisfiable a.now) }
{
    let parted = parted_of(alloc, a)?;
    can_be_true(alloc, &parted, &[], &[])
}

/// Whether each assignment that makes all of `a` true makes all of `b` true, of lists that fit together.
pub fn entails(alloc: Global, a: &[Lit], b: &[Lit]) -> Result<bool, NoMemory>
    requires { IsTrue (fits a.now b.now) }
    ensures exact { IfOk result (λ r. IsTrue r ↔ Entails a.now b.now) }
    ensures test { IfOk result (λ r. r ≡ entailed a.now b.now) }
{
    let parted = parted_of(alloc, a)?;
    for lit in b {
        let is_int = compares_ints(lit);
        if !follows(alloc, a, &parted, lit, is_int)? {
            return Ok(false);
        }
    }
    Ok(true)
}
