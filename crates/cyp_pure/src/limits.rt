ghost use Rattle.std.specs.Prelude.{count_by, filter, length, nat_le, not, ◌&&◌, ◌≡◌, IfOk, OnOk};
ghost use Rattle.std.specs.List.{flat_map};
ghost use Rattle.cyp_term.specs.Terms.{is_set_var, lit_elements, lits_vars, term_eq, var_eq, with_all_new};
ghost use Rattle.cyp_pure.specs.Fits.{fits};

use crate::seen::{add_elements, add_lit_vars};
use cyp_term::{Lit, NoMemory, Sort, Term, Var};
use std::alloc::Global;

const MOST_LEFT: usize = 320;

const MOST_RIGHT: usize = 64;

const MOST_NUMBERS: usize = 32;

const MOST_SETS: usize = 12;

const MOST_ELEMENTS: usize = 6;

fn add_all_vars(vars: &mut Vec<Var>, lits: &[Lit]) -> Result<(), NoMemory>
    ensures { OnOk result (vars.new.items ≡ with_all_new var_eq vars.old.items (lits_vars lits.now)) }
{
    for lit in lits {
        add_lit_vars(vars, lit)?;
    }
    Ok(())
}

/// Adds the literals' element terms that aren't there yet, in their order.
pub(crate) fn add_all_elements(terms: &mut Vec<Term>, lits: &[Lit]) -> Result<(), NoMemory>
    ensures { OnOk result (terms.new.items ≡ with_all_new term_eq terms.old.items (flat_map lit_elements lits.now)) }
{
    for lit in lits {
        add_elements(terms, lit)?;
    }
    Ok(())
}

fn is_set(var: Var) -> bool
    ensures { result ≡ is_set_var var }
{
    var.sort == Sort::Set
}

fn count_sets(vars: &[Var]) -> usize
    ensures { result ≡ count_by is_set_var vars.now }
{
    vars.iter().filter(|var| is_set(**var)).count()
}

fn vars_fit(vars: &[Var]) -> bool
    ensures { result ≡ (nat_le (length (filter (λ v. not (is_set_var v)) vars.now)) 32 && nat_le (length (filter is_set_var vars.now)) 12) }
{
    let sets = count_sets(vars);
    vars.len() - sets <= MOST_NUMBERS && sets <= MOST_SETS
}

fn all_fit(vars: &[Var], terms: &[Term]) -> bool
    ensures { result ≡ (nat_le (length (filter (λ v. not (is_set_var v)) vars.now)) 32 && nat_le (length (filter is_set_var vars.now)) 12 && nat_le (length terms.now) 6) }
{
    vars_fit(vars) && terms.len() <= MOST_ELEMENTS
}

/// Whether both lists together are within the limits of the decision: at most 32 variables of integers or cardinalities and 12
/// of sets, 6 different element terms (those in braces and those left of `in`), 320 literals in the first list and 64 in the
/// second.
pub fn fits(alloc: Global, a: &[Lit], b: &[Lit]) -> Result<bool, NoMemory>
    ensures { IfOk result (λ r. r ≡ fits a.now b.now) }
{
    if a.len() > MOST_LEFT || b.len() > MOST_RIGHT {
        return Ok(false);
    }
    let mut vars = Vec::new(alloc);
    add_all_vars(&mut vars, a)?;
    add_all_vars(&mut vars, b)?;
    let mut terms = Vec::new(alloc);
    add_all_elements(&mut terms, a)?;
    add_all_elements(&mut terms, b)?;
    Ok(all_fit(vars.as_slice(), terms.as_slice()))
}
