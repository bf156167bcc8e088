//! Substitution in lists of literals and of terms.

ghost use Rattle.std.specs.Prelude.{map};
ghost use Rattle.std.specs.List.{list_any};
ghost use Rattle.cyp_term.specs.Answers.{GivesUnless};
ghost use Rattle.cyp_term.specs.Terms.{apply_lit, apply_term, wide_lit, wide_term};

use cyp_term::{Fail, List, Lit, Subst, Term, TooWide};
use std::alloc::Global;

/// The literals with each variable replaced by its image. It is `TooWide` exactly where an offset in
/// one passes 2^32 in size.
pub(crate) fn apply_lits(
    alloc: Global,
    lits: &[Lit],
    by: &Subst,
) -> Result<List<Lit>, Fail<TooWide>>
    ensures { GivesUnless (list_any wide_lit (map (apply_lit by.now) lits.now)) (map (apply_lit by.now) lits.now) result }
{
    let mut applied = Vec::with_capacity(alloc, lits.len())?;
    for lit in lits {
        applied.push(lit.apply(alloc, by)?)?;
    }
    Ok(List::from_vec(applied))
}

fn apply_term(term: Term, by: &Subst) -> Result<Term, Fail<TooWide>>
    ensures { GivesUnless (wide_term (apply_term by.now term)) (apply_term by.now term) result }
{
    Ok(term.apply(by)?)
}

/// The terms with each variable replaced by its image. It is `TooWide` exactly where an offset passes
/// 2^32 in size.
pub(crate) fn apply_terms(
    alloc: Global,
    terms: &[Term],
    by: &Subst,
) -> Result<List<Term>, Fail<TooWide>>
    ensures { GivesUnless (list_any wide_term (map (apply_term by.now) terms.now)) (map (apply_term by.now) terms.now) result }
{
    let mut applied = Vec::with_capacity(alloc, terms.len())?;
    for term in terms {
        applied.push(apply_term(*term, by)?)?;
    }
    Ok(List::from_vec(applied))
}
