//! Lists of variables and of terms without repeats.

ghost use Rattle.std.specs.Prelude.{◌≡◌, OnOk};
ghost use Rattle.std.specs.List.{list_any};
ghost use Rattle.cyp_term.specs.Terms.{term_eq, var_eq, var_in, with_new};

use cyp_term::{NoMemory, Term, Var};

pub(crate) fn is_among(var: Var, vars: &[Var]) -> bool
    ensures { result ≡ var_in var vars.now }
{
    vars.iter().any(|other| *other == var)
}

/// Adds the variable at the end, unless it is there.
pub(crate) fn add_var(vars: &mut Vec<Var>, var: Var) -> Result<(), NoMemory>
    ensures { OnOk result (vars.new.items ≡ with_new var_eq vars.old.items var) }
{
    if !is_among(var, vars.as_slice()) {
        vars.push(var)?;
    }
    Ok(())
}

fn same_term(a: Term, b: Term) -> bool
    ensures { result ≡ term_eq a b }
{
    a.base() == b.base() && a.offset() == b.offset()
}

fn is_term_among(term: Term, terms: &[Term]) -> bool
    ensures { result ≡ list_any (term_eq term) terms.now }
{
    terms.iter().any(|other| same_term(term, *other))
}

/// Adds the term at the end, unless it is there.
pub(crate) fn add_term(terms: &mut Vec<Term>, term: Term) -> Result<(), NoMemory>
    ensures { OnOk result (terms.new.items ≡ with_new term_eq terms.old.items term) }
{
    if !is_term_among(term, terms.as_slice()) {
        terms.push(term)?;
    }
    Ok(())
}
