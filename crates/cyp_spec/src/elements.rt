ghost use Rattle.std.specs.Prelude.{[], IfOk, OnOk, length, nat_le, ◌++◌, ◌≡◌};
ghost use Rattle.std.specs.List.{flat_map, list_any};
ghost use Rattle.cyp_heap.specs.Limits.{arg_elements};
ghost use Rattle.cyp_term.specs.Terms.{lit_elements, term_eq, with_new, without_repeats};

use cyp_heap::Arg;
use cyp_term::{Lit, NoMemory, Term};
use std::alloc::Global;

/// Adds the element terms of a literal.
fn add_lit_elements(terms: &mut Vec<Term>, lit: &Lit) -> Result<(), NoMemory>
    ensures { OnOk result (terms.new.items ≡ terms.old.items ++ lit_elements lit.now) }
{
    match lit {
        Lit::Eq(_, _) | Lit::Ne(_, _) | Lit::Le(_, _) | Lit::Lt(_, _) => Ok(()),
        Lit::Member(term, set) | Lit::NotMember(term, set) => {
            terms.push(*term)?;
            terms.extend_from_slice(set.elems())?;
            Ok(())
        }
        Lit::Same(a, b) | Lit::NotSame(a, b) | Lit::Sub(a, b) | Lit::NotSub(a, b) => {
            terms.extend_from_slice(a.elems())?;
            terms.extend_from_slice(b.elems())?;
            Ok(())
        }
    }
}

/// Adds the element terms of the literals.
pub(crate) fn add_lits_elements(terms: &mut Vec<Term>, lits: &[Lit]) -> Result<(), NoMemory>
    ensures { OnOk result (terms.new.items ≡ terms.old.items ++ flat_map lit_elements lits.now) }
{
    for lit in lits {
        add_lit_elements(terms, lit)?;
    }
    Ok(())
}

fn add_arg_elements(terms: &mut Vec<Term>, arg: &Arg) -> Result<(), NoMemory>
    ensures { OnOk result (terms.new.items ≡ terms.old.items ++ arg_elements arg.now) }
{
    match arg {
        Arg::Int(_) => Ok(()),
        Arg::Set(set) => {
            terms.extend_from_slice(set.elems())?;
            Ok(())
        }
    }
}

/// Adds the element terms of the arguments.
pub(crate) fn add_args_elements(terms: &mut Vec<Term>, args: &[Arg]) -> Result<(), NoMemory>
    ensures { OnOk result (terms.new.items ≡ terms.old.items ++ flat_map arg_elements args.now) }
{
    for arg in args {
        add_arg_elements(terms, arg)?;
    }
    Ok(())
}

fn is_among(term: Term, terms: &[Term]) -> bool
    ensures { result ≡ list_any (term_eq term) terms.now }
{
    terms.iter().any(|other| term == *other)
}

/// Adds the term, unless it is there.
fn add_new(found: &mut Vec<Term>, term: Term) -> Result<(), NoMemory>
    ensures { OnOk result (found.new.items ≡ with_new term_eq found.old.items term) }
{
    if !is_among(term, found.as_slice()) {
        found.push(term)?;
    }
    Ok(())
}

/// Whether there are at most so many different ones among the terms.
pub(crate) fn are_few(alloc: Global, terms: &[Term], most: usize) -> Result<bool, NoMemory>
    ensures { IfOk result (λ b. b ≡ nat_le (length (without_repeats term_eq terms.now)) most) }
{
    let mut found = Vec::new(alloc);
    for term in terms {
        add_new(&mut found, *term)?;
        if found.len() > most {
            return Ok(false);
        }
    }
    Ok(found.len() <= most)
}
