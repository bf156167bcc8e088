//! Existentials and program variables in terms and literals.

ghost use Rattle.std.specs.Prelude.{IfOk, ◌≡◌};
ghost use Rattle.std.specs.List.{flat_map, list_any};
ghost use Rattle.cyp_step.specs.FlatRules.{first_exist, has_exist};
ghost use Rattle.cyp_step.specs.Shown.{is_open, is_program_expr};
ghost use Rattle.cyp_term.specs.Terms.{set_vars, term_vars, var_in};

use crate::occurs::vars_of;
use cyp_heap::Goal;
use cyp_term::{Lit, NoMemory, SetTerm, Term, Var};
use std::alloc::Global;

pub(crate) fn is_among(var: Var, vars: &[Var]) -> bool
    ensures { result ≡ var_in var vars.now }
{
    vars.iter().any(|other| *other == var)
}

/// Whether the term is a constant or has a program variable as base.
pub(crate) fn is_program_expr(goal: &Goal, term: Term) -> bool
    ensures { result ≡ is_program_expr goal.now term }
{
    match term.base() {
        Some(var) => is_among(var, goal.program.as_slice()),
        None => true,
    }
}

/// Whether the term has an existential as base.
pub(crate) fn has_exist(goal: &Goal, term: Term) -> bool
    ensures { result ≡ has_exist goal.now term }
{
    match term.base() {
        Some(var) => is_among(var, goal.exist.as_slice()),
        None => false,
    }
}

fn some_are_exist(goal: &Goal, vars: &[Var]) -> bool
    ensures { result ≡ list_any (λ v. var_in v goal.now.exist) vars.now }
{
    for var in vars {
        if is_among(*var, goal.exist.as_slice()) {
            return true;
        }
    }
    false
}

fn some_have_exist(goal: &Goal, terms: &[Term]) -> bool
    ensures { result ≡ list_any (λ v. var_in v goal.now.exist) (flat_map term_vars terms.now) }
{
    for term in terms {
        if has_exist(goal, *term) {
            return true;
        }
    }
    false
}

fn is_set_open(goal: &Goal, set: &SetTerm) -> bool
    ensures { result ≡ list_any (λ v. var_in v goal.now.exist) (set_vars set.now) }
{
    some_are_exist(goal, set.vars()) || some_have_exist(goal, set.elems())
}

/// Whether the literal has an existential.
pub(crate) fn is_open(goal: &Goal, lit: &Lit) -> bool
    ensures { result ≡ is_open goal.now lit.now }
{
    match lit {
        Lit::Eq(a, b) | Lit::Ne(a, b) | Lit::Le(a, b) | Lit::Lt(a, b) => {
            has_exist(goal, *a) || has_exist(goal, *b)
        }
        Lit::Member(a, b) | Lit::NotMember(a, b) => has_exist(goal, *a) || is_set_open(goal, b),
        Lit::Same(a, b) | Lit::NotSame(a, b) | Lit::Sub(a, b) | Lit::NotSub(a, b) => {
            is_set_open(goal, a) || is_set_open(goal, b)
        }
    }
}

/// The first existential in the literals of the postcondition.
pub fn first_exist(alloc: Global, goal: &Goal) -> Result<Option<Var>, NoMemory>
    ensures { IfOk result (λ v. v ≡ first_exist goal.now) }
{
    let vars = vars_of(alloc, goal.pure_post.as_slice())?;
    for var in vars.as_slice() {
        if is_among(*var, goal.exist.as_slice()) {
            return Ok(Some(*var));
        }
    }
    Ok(None)
}
