//! The map of the companion that Open adds: each variable outside the existentials to itself.

ghost use Rattle.std.specs.Prelude.{IfOk, OnOk, cond, filter, map, not, ◌≡◌};
ghost use Rattle.cyp_heap.specs.Goals.{node_vars};
ghost use Rattle.cyp_step.specs.UnfoldParts.{same_int, same_set};
ghost use Rattle.cyp_step.specs.Unfolding.{identity_map};
ghost use Rattle.cyp_term.specs.Terms.{is_set_var, var_eq, var_in, with_new};

use crate::existentials::is_among;
use crate::flat_goals::set_of;
use crate::next::vars_of_node;
use cyp_heap::Node;
use cyp_term::{IntBind, List, NoMemory, SetBind, Sort, Subst, Term, Var};
use std::alloc::Global;

/// Adds the variable at the end, unless it is an existential or is there.
fn add_outer(exist: &[Var], var: &Var, vars: &mut Vec<Var>) -> Result<(), NoMemory>
    ensures { OnOk result (vars.new.items ≡ cond (not (var_in var.now exist.now)) (with_new var_eq vars.old.items var.now) vars.old.items) }
{
    if !is_among(*var, exist) && !is_among(*var, vars.as_slice()) {
        vars.push(*var)?;
    }
    Ok(())
}

/// The node's variables outside the existentials, each once.
fn outer_vars(alloc: Global, node: &Node) -> Result<Vec<Var>, NoMemory>
    ensures { IfOk result (λ vs. vs.items ≡ filter (λ v. not (var_in v node.now.goal.exist)) (node_vars node.now)) }
{
    let found = vars_of_node(alloc, node)?;
    let all = found.as_slice();
    let exist = node.goal().exist.as_slice();
    let mut vars = Vec::new(alloc);
    for place in 0..all.len() {
        add_outer(exist, &all[place], &mut vars)?;
    }
    Ok(vars)
}

/// The integers and cardinalities among the variables, each to itself.
fn int_binds(alloc: Global, vars: &[Var]) -> Result<List<IntBind>, NoMemory>
    ensures { IfOk result (λ bs. bs ≡ map same_int (filter (λ v. not (is_set_var v)) vars.now)) }
{
    let mut binds = Vec::new(alloc);
    for var in vars {
        if var.sort != Sort::Set {
            let to = Term::new(Some(*var), 0);
            binds.push(IntBind { var: *var, to })?;
        }
    }
    Ok(List::from_vec(binds))
}

/// The sets among the variables, each to itself.
fn set_binds(alloc: Global, vars: &[Var]) -> Result<List<SetBind>, NoMemory>
    ensures { IfOk result (λ bs. bs ≡ map same_set (filter is_set_var vars.now)) }
{
    let mut binds = Vec::new(alloc);
    for var in vars {
        if var.sort == Sort::Set {
            let to = set_of(alloc, *var)?;
            binds.push(SetBind { var: *var, to })?;
        }
    }
    Ok(List::from_vec(binds))
}

/// Each variable outside the existentials to itself.
pub(crate) fn identity_map(alloc: Global, node: &Node) -> Result<Subst, NoMemory>
    ensures { IfOk result (λ m. m ≡ identity_map node.now) }
{
    let vars = outer_vars(alloc, node)?;
    Ok(Subst {
        ints: int_binds(alloc, vars.as_slice())?,
        sets: set_binds(alloc, vars.as_slice())?,
    })
}
