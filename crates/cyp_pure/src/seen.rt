ghost use Rattle.std.specs.Prelude.{◌≡◌, OnOk};
ghost use Rattle.std.specs.List.{flat_map, list_any};
ghost use Rattle.cyp_term.specs.Terms.{lit_elements, lit_vars, set_vars, term_eq, term_vars, var_eq, with_all_new, with_new};

use cyp_term::{Lit, NoMemory, SetTerm, Term, Var};

fn has_var(vars: &[Var], var: Var) -> bool
    ensures { result ≡ list_any (var_eq var) vars.now }
{
    vars.iter().any(|other| var == *other)
}

fn has_term(terms: &[Term], term: Term) -> bool
    ensures { result ≡ list_any (term_eq term) terms.now }
{
    terms.iter().any(|other| term == *other)
}

fn add_var(vars: &mut Vec<Var>, var: Var) -> Result<(), NoMemory>
    ensures { OnOk result (vars.new.items ≡ with_new var_eq vars.old.items var) }
{
    if !has_var(vars.as_slice(), var) {
        vars.push(var)?;
    }
    Ok(())
}

fn add_term(terms: &mut Vec<Term>, term: Term) -> Result<(), NoMemory>
    ensures { OnOk result (terms.new.items ≡ with_new term_eq terms.old.items term) }
{
    if !has_term(terms.as_slice(), term) {
        terms.push(term)?;
    }
    Ok(())
}

fn add_base(vars: &mut Vec<Var>, term: &Term) -> Result<(), NoMemory>
    ensures { OnOk result (vars.new.items ≡ with_all_new var_eq vars.old.items (term_vars term.now)) }
{
    match term.base() {
        Some(var) => add_var(vars, var),
        None => Ok(()),
    }
}

fn add_vars(vars: &mut Vec<Var>, more: &[Var]) -> Result<(), NoMemory>
    ensures { OnOk result (vars.new.items ≡ with_all_new var_eq vars.old.items more.now) }
{
    for var in more {
        add_var(vars, *var)?;
    }
    Ok(())
}

fn add_bases(vars: &mut Vec<Var>, terms: &[Term]) -> Result<(), NoMemory>
    ensures { OnOk result (vars.new.items ≡ with_all_new var_eq vars.old.items (flat_map term_vars terms.now)) }
{
    for term in terms {
        add_base(vars, term)?;
    }
    Ok(())
}

fn add_set_vars(vars: &mut Vec<Var>, set: &SetTerm) -> Result<(), NoMemory>
    ensures { OnOk result (vars.new.items ≡ with_all_new var_eq vars.old.items (set_vars set.now)) }
{
    add_vars(vars, set.vars())?;
    add_bases(vars, set.elems())
}

fn add_terms(terms: &mut Vec<Term>, more: &[Term]) -> Result<(), NoMemory>
    ensures { OnOk result (terms.new.items ≡ with_all_new term_eq terms.old.items more.now) }
{
    for term in more {
        add_term(terms, *term)?;
    }
    Ok(())
}

/// Adds the literal's variables that aren't there yet, in their order.
pub(crate) fn add_lit_vars(vars: &mut Vec<Var>, lit: &Lit) -> Result<(), NoMemory>
    ensures { OnOk result (vars.new.items ≡ with_all_new var_eq vars.old.items (lit_vars lit.now)) }
{
    match lit {
        Lit::Eq(a, b) | Lit::Ne(a, b) | Lit::Le(a, b) | Lit::Lt(a, b) => {
            add_base(vars, a)?;
            add_base(vars, b)
        }
        Lit::Same(a, b) | Lit::NotSame(a, b) | Lit::Sub(a, b) | Lit::NotSub(a, b) => {
            add_set_vars(vars, a)?;
            add_set_vars(vars, b)
        }
        Lit::Member(a, b) | Lit::NotMember(a, b) => {
            add_base(vars, a)?;
            add_set_vars(vars, b)
        }
    }
}

/// Adds the literal's element terms that aren't there yet, in their order.
pub(crate) fn add_elements(terms: &mut Vec<Term>, lit: &Lit) -> Result<(), NoMemory>
    ensures { OnOk result (terms.new.items ≡ with_all_new term_eq terms.old.items (lit_elements lit.now)) }
{
    match lit {
        Lit::Eq(_, _) | Lit::Ne(_, _) | Lit::Le(_, _) | Lit::Lt(_, _) => Ok(()),
        Lit::Same(a, b) | Lit::NotSame(a, b) | Lit::Sub(a, b) | Lit::NotSub(a, b) => {
            add_terms(terms, a.elems())?;
            add_terms(terms, b.elems())
        }
        Lit::Member(a, b) | Lit::NotMember(a, b) => {
            add_term(terms, *a)?;
            add_terms(terms, b.elems())
        }
    }
}
