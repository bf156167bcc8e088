ghost use Rattle.std.specs.Prelude.{◌≡◌, ◌==◌, ◌++◌, IfOk, OnErr, OnOk, flat_map};
ghost use Rattle.std.specs.List.{list_any};
ghost use Rattle.cyp_term.specs.Regions.{all_set_vars, all_terms, elem_terms, lit_set_vars, term_in};
ghost use Rattle.cyp_term.specs.Terms.{term_eq, var_eq, var_in, with_all_new, with_new, without_repeats};

use crate::names::{same_term, same_var};
use cyp_term::{Lit, NoMemory, Term, Var};
use std::alloc::Global;

fn is_var_among(var: Var, vars: &[Var]) -> bool
    ensures { result ≡ var_in var vars.now }
{
    vars.iter().any(|other| same_var(var, *other))
}

fn is_term_among(term: &Term, terms: &[Term]) -> bool
    ensures { result ≡ term_in term.now terms.now }
{
    terms.iter().any(|other| same_term(term, other))
}

fn add_var(vars: &mut Vec<Var>, var: Var) -> Result<(), NoMemory>
    ensures ok { OnOk result (vars.new.items ≡ with_new var_eq vars.old.items var) }
    ensures err { OnErr result (vars.new.items ≡ vars.old.items) }
{
    if !is_var_among(var, vars.as_slice()) {
        vars.push(var)?;
    }
    Ok(())
}

fn add_term(terms: &mut Vec<Term>, term: &Term) -> Result<(), NoMemory>
    ensures ok { OnOk result (terms.new.items ≡ with_new term_eq terms.old.items term.now) }
    ensures err { OnErr result (terms.new.items ≡ terms.old.items) }
{
    if !is_term_among(term, terms.as_slice()) {
        terms.push(*term)?;
    }
    Ok(())
}

fn add_class(classes: &mut Vec<u8>, class: u8) -> Result<(), NoMemory>
    ensures ok { OnOk result (classes.new.items ≡ with_new ◌==◌ classes.old.items class) }
    ensures err { OnErr result (classes.new.items ≡ classes.old.items) }
{
    if !is_class_among(class, classes.as_slice()) {
        classes.push(class)?;
    }
    Ok(())
}

fn is_class_among(class: u8, classes: &[u8]) -> bool
    ensures { result ≡ list_any (λ other. class == other) classes.now }
{
    classes.iter().any(|other| class == *other)
}

/// The variables, and each of the others that isn't among them yet.
fn with_vars(mut vars: Vec<Var>, others: &[Var]) -> Result<Vec<Var>, NoMemory>
    ensures { IfOk result (λ vs. vs.items ≡ with_all_new var_eq vars.items others.now) }
{
    for var in others {
        add_var(&mut vars, *var)?;
    }
    Ok(vars)
}

/// The terms, and each of the others that isn't among them yet.
fn with_terms(mut terms: Vec<Term>, others: &[Term]) -> Result<Vec<Term>, NoMemory>
    ensures { IfOk result (λ ts. ts.items ≡ with_all_new term_eq terms.items others.now) }
{
    for term in others {
        add_term(&mut terms, term)?;
    }
    Ok(terms)
}

/// The classes, each once.
pub(crate) fn kinds_of(alloc: Global, classes: &[u8]) -> Result<Vec<u8>, NoMemory>
    ensures { IfOk result (λ ks. ks.items ≡ without_repeats ◌==◌ classes.now) }
{
    let mut kinds = Vec::new(alloc);
    for class in classes {
        add_class(&mut kinds, *class)?;
    }
    Ok(kinds)
}

fn with_lit_vars(vars: Vec<Var>, lit: &Lit) -> Result<Vec<Var>, NoMemory>
    ensures { IfOk result (λ vs. vs.items ≡ with_all_new var_eq vars.items (lit_set_vars lit.now)) }
{
    match lit {
        Lit::Same(a, b) | Lit::NotSame(a, b) | Lit::Sub(a, b) | Lit::NotSub(a, b) => {
            with_vars(with_vars(vars, a.vars())?, b.vars())
        }
        Lit::Member(_, a) | Lit::NotMember(_, a) => with_vars(vars, a.vars()),
        _ => Ok(vars),
    }
}

fn with_lit_terms(terms: Vec<Term>, lit: &Lit) -> Result<Vec<Term>, NoMemory>
    ensures { IfOk result (λ ts. ts.items ≡ with_all_new term_eq terms.items (elem_terms lit.now)) }
{
    match lit {
        Lit::Same(a, b) | Lit::NotSame(a, b) | Lit::Sub(a, b) | Lit::NotSub(a, b) => {
            with_terms(with_terms(terms, a.elems())?, b.elems())
        }
        Lit::Member(e, a) | Lit::NotMember(e, a) => {
            with_terms(with_terms(terms, &[*e])?, a.elems())
        }
        _ => Ok(terms),
    }
}

/// The variables, and those set variables of the literals that aren't among them yet.
fn with_all_vars(mut vars: Vec<Var>, lits: &[Lit]) -> Result<Vec<Var>, NoMemory>
    ensures { IfOk result (λ vs. vs.items ≡ with_all_new var_eq vars.items (flat_map lit_set_vars lits.now)) }
{
    for lit in lits {
        vars = with_lit_vars(vars, lit)?;
    }
    Ok(vars)
}

/// The terms, and those element terms of the literals that aren't among them yet.
fn with_all_terms(mut terms: Vec<Term>, lits: &[Lit]) -> Result<Vec<Term>, NoMemory>
    ensures { IfOk result (λ ts. ts.items ≡ with_all_new term_eq terms.items (flat_map elem_terms lits.now)) }
{
    for lit in lits {
        terms = with_lit_terms(terms, lit)?;
    }
    Ok(terms)
}

/// The set variables of the literals, each once, in order of first occurrence.
pub fn vars_of(alloc: Global, lits: &[Lit], more: &[Lit]) -> Result<Vec<Var>, NoMemory>
    ensures { IfOk result (λ vs. vs.items ≡ all_set_vars (lits.now ++ more.now)) }
{
    with_all_vars(with_all_vars(Vec::new(alloc), lits)?, more)
}

/// The element terms of the literals, each once, in order of first occurrence.
pub fn terms_of(alloc: Global, lits: &[Lit], more: &[Lit]) -> Result<Vec<Term>, NoMemory>
    ensures { IfOk result (λ ts. ts.items ≡ all_terms (lits.now ++ more.now)) }
{
    with_all_terms(with_all_terms(Vec::new(alloc), lits)?, more)
}
