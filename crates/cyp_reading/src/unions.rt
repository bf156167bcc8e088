//! Unions, whose variables and elements are kept without repeats.

ghost use Rattle.std.specs.Prelude.{IfOk, OnOk, length, map, ◌∷◌, ◌≡◌, ◌≤◌};
ghost use Rattle.std.specs.List.{All, flat_map, list_any};
ghost use Rattle.cyp_reading.specs.Readable.{HasSort, IntReadable, PartReadable, SetReadable};
ghost use Rattle.cyp_term.specs.Terms.{term_eq, var_eq, with_all_new, with_new};
ghost use Rattle.cyp_term.specs.declared.term.Sort.TheVariants.{Set};
ghost use Rattle.cyp_names.specs.ReadTerms.{part_elems, part_vars, read_int, read_set, read_union, var_named};
ghost use Rattle.cyp_text.specs.declared.tree.PartTree.TheVariants.{Braces, PartName};

use crate::terms::read_int;
use cyp_lex::Ident;
use cyp_names::Scope;
use cyp_term::{List, NoMemory, SetTerm, Term, Var};
use cyp_text::{IntTree, PartTree, SetTree};
use std::alloc::Global;

fn has_var(vars: &[Var], var: Var) -> bool
    ensures { result ≡ list_any (var_eq var) vars.now }
{
    vars.iter().any(|other| var == *other)
}

fn has_term(terms: &[Term], term: Term) -> bool
    ensures { result ≡ list_any (term_eq term) terms.now }
{
    terms.iter().any(|other| term == *other)
}

/// Adds the variable of the name, if it isn't there yet.
fn add_name(vars: &mut Vec<Var>, scope: &Scope<'_>, name: &Ident) -> Result<(), NoMemory>
    requires { length scope.now ≤ 255 }
    ensures { OnOk result (vars.new.items ≡ with_new var_eq vars.old.items (var_named scope.now name.now.text)) }
{
    let var = scope.var_named(&name.text);
    if !has_var(vars.as_slice(), var) {
        vars.push(var)?;
    }
    Ok(())
}

/// Adds the variable of the part, if it is a name.
fn add_part_var(vars: &mut Vec<Var>, scope: &Scope<'_>, part: &PartTree) -> Result<(), NoMemory>
    requires { length scope.now ≤ 255 }
    ensures { OnOk result (vars.new.items ≡ with_all_new var_eq vars.old.items (part_vars scope.now part.now)) }
{
    match part {
        PartTree::PartName(name) => add_name(vars, scope, name),
        PartTree::Braces(_, _) => Ok(()),
    }
}

/// Adds the variables of the parts that are names.
fn add_vars(vars: &mut Vec<Var>, scope: &Scope<'_>, parts: &[PartTree]) -> Result<(), NoMemory>
    requires { length scope.now ≤ 255 }
    ensures { OnOk result (vars.new.items ≡ with_all_new var_eq vars.old.items (flat_map (part_vars scope.now) parts.now)) }
{
    for part in parts {
        add_part_var(vars, scope, part)?;
    }
    Ok(())
}

/// Adds a term that isn't there yet.
fn add_term(terms: &mut Vec<Term>, term: Term) -> Result<(), NoMemory>
    ensures { OnOk result (terms.new.items ≡ with_new term_eq terms.old.items term) }
{
    if !has_term(terms.as_slice(), term) {
        terms.push(term)?;
    }
    Ok(())
}

/// Adds the terms that stand in braces.
fn add_terms(elems: &mut Vec<Term>, scope: &Scope<'_>, terms: &[IntTree]) -> Result<(), NoMemory>
    requires few { length scope.now ≤ 255 }
    requires readable { All (IntReadable scope.now) terms.now }
    ensures { OnOk result (elems.new.items ≡ with_all_new term_eq elems.old.items (map (read_int scope.now) terms.now)) }
{
    for term in terms {
        add_term(elems, read_int(scope, term))?;
    }
    Ok(())
}

/// Adds the elements of the part, if it stands in braces.
fn add_part_elems(elems: &mut Vec<Term>, scope: &Scope<'_>, part: &PartTree) -> Result<(), NoMemory>
    requires few { length scope.now ≤ 255 }
    requires readable { PartReadable scope.now part.now }
    ensures { OnOk result (elems.new.items ≡ with_all_new term_eq elems.old.items (part_elems scope.now part.now)) }
{
    match part {
        PartTree::PartName(_) => Ok(()),
        PartTree::Braces(_, terms) => add_terms(elems, scope, terms.as_slice()),
    }
}

/// Adds the elements of the parts that stand in braces.
fn add_elems(elems: &mut Vec<Term>, scope: &Scope<'_>, parts: &[PartTree]) -> Result<(), NoMemory>
    requires few { length scope.now ≤ 255 }
    requires readable { All (PartReadable scope.now) parts.now }
    ensures { OnOk result (elems.new.items ≡ with_all_new term_eq elems.old.items (flat_map (part_elems scope.now) parts.now)) }
{
    for part in parts {
        add_part_elems(elems, scope, part)?;
    }
    Ok(())
}

/// The union that the tree says.
pub fn read_set(alloc: Global, scope: &Scope<'_>, tree: &SetTree) -> Result<SetTerm, NoMemory>
    requires few { length scope.now ≤ 255 }
    requires readable { SetReadable scope.now tree.now }
    ensures { IfOk result (λ u. u ≡ read_set scope.now tree.now) }
{
    let mut vars = Vec::new(alloc);
    add_part_var(&mut vars, scope, &tree.first)?;
    add_vars(&mut vars, scope, tree.others.as_slice())?;
    let mut elems = Vec::new(alloc);
    add_part_elems(&mut elems, scope, &tree.first)?;
    add_elems(&mut elems, scope, tree.others.as_slice())?;
    Ok(SetTerm::new(List::from_vec(vars), List::from_vec(elems)))
}

/// The union of terms in braces and parts.
pub(crate) fn read_braces(
    alloc: Global,
    scope: &Scope<'_>,
    terms: &[IntTree],
    parts: &[PartTree],
) -> Result<SetTerm, NoMemory>
    requires few { length scope.now ≤ 255 }
    requires terms { All (IntReadable scope.now) terms.now }
    requires parts { All (PartReadable scope.now) parts.now }
    ensures { IfOk result (λ u. u ≡ read_union scope.now (Braces 0 terms.now ∷ parts.now)) }
{
    let mut vars = Vec::new(alloc);
    add_vars(&mut vars, scope, parts)?;
    let mut elems = Vec::new(alloc);
    add_terms(&mut elems, scope, terms)?;
    add_elems(&mut elems, scope, parts)?;
    Ok(SetTerm::new(List::from_vec(vars), List::from_vec(elems)))
}

/// The union of a name, a part and further parts.
pub(crate) fn read_named(
    alloc: Global,
    scope: &Scope<'_>,
    name: &Ident,
    part: &PartTree,
    parts: &[PartTree],
) -> Result<SetTerm, NoMemory>
    requires few { length scope.now ≤ 255 }
    requires name { HasSort scope.now Set name.now }
    requires part { PartReadable scope.now part.now }
    requires parts { All (PartReadable scope.now) parts.now }
    ensures { IfOk result (λ u. u ≡ read_union scope.now (PartName name.now ∷ part.now ∷ parts.now)) }
{
    let mut vars = Vec::new(alloc);
    add_name(&mut vars, scope, name)?;
    add_part_var(&mut vars, scope, part)?;
    add_vars(&mut vars, scope, parts)?;
    let mut elems = Vec::new(alloc);
    add_part_elems(&mut elems, scope, part)?;
    add_elems(&mut elems, scope, parts)?;
    Ok(SetTerm::new(List::from_vec(vars), List::from_vec(elems)))
}
