ghost use Rattle.std.specs.Prelude.{[], ◌≡◌, ◌&&◌, ◌++◌, ◌∷◌, IfOk, IsTrue, None, OnOk, Some, int_le, map, pos};
ghost use Rattle.std.specs.List.{All, filter, flat_map};
ghost use Rattle.cyp_goal.specs.Least.{least_term, lesser};
ghost use Rattle.cyp_goal.specs.Tidying.{above_zero, address, address_lits, least_of, offsets_at};
ghost use Rattle.cyp_term.specs.Terms.{base_eq, term_vars, var_eq, var_in, with_all_new, without_repeats};

use crate::once::add_var;
use cyp_heap::Chunk;
use cyp_term::{Lit, NoMemory, Term, Var};
use std::alloc::Global;

fn addresses(alloc: Global, chunks: &[Chunk]) -> Result<Vec<Term>, NoMemory>
    ensures { IfOk result (λ ts. ts.items ≡ flat_map address chunks.now) }
{
    let mut terms = Vec::with_capacity(alloc, chunks.len())?;
    for chunk in chunks {
        match chunk {
            Chunk::Inst(_) => {}
            Chunk::Block(block) => terms.push(block.at())?,
            Chunk::Cell(cell) => terms.push(cell.at)?,
        }
    }
    Ok(terms)
}

fn add_base(bases: &mut Vec<Var>, term: &Term) -> Result<(), NoMemory>
    ensures { OnOk result (bases.new.items ≡ with_all_new var_eq bases.old.items (term_vars term.now)) }
{
    match term.base() {
        Some(var) => add_var(bases, var),
        None => Ok(()),
    }
}

/// The bases of the terms in order of first occurrence.
fn bases_of(alloc: Global, terms: &[Term]) -> Result<Vec<Var>, NoMemory>
    ensures { IfOk result (λ vs. vs.items ≡ without_repeats var_eq (flat_map term_vars terms.now)) }
{
    let mut bases = Vec::new(alloc);
    for term in terms {
        add_base(&mut bases, term)?;
    }
    Ok(bases)
}

/// The term where it has this base and a lower offset, and else the best so far.
fn lesser(var: Var, best: Option<Term>, term: &Term) -> Option<Term>
    ensures { result ≡ lesser var best term.now }
{
    if term.base() != Some(var) {
        return best;
    }
    match best {
        Some(least) if least.offset() <= term.offset() => best,
        _ => Some(*term),
    }
}

/// The term with the least offset among those with this base.
fn least(var: Var, terms: &[Term]) -> Option<Term>
    ensures { result ≡ least_term var terms.now }
{
    let mut best = None;
    for term in terms {
        best = lesser(var, best, term);
    }
    best
}

fn above_zero(term: Term) -> Lit
    ensures { result ≡ above_zero term }
{
    Lit::Lt(Term::new(None, 0), term)
}

/// Adds that the least of the addresses with this base is positive.
fn add_least(lits: &mut Vec<Lit>, base: Var, terms: &[Term]) -> Result<(), NoMemory>
    requires { IsTrue (var_in base (flat_map term_vars terms.now)) }
    ensures { OnOk result (lits.new.items ≡ lits.old.items ++ above_zero (record { base = Some base; offset = least_of (offsets_at base terms.now) }) ∷ []) }
{
    match least(base, terms) {
        Some(term) => Ok(lits.push(above_zero(term))?),
        None => unreachable!(),
    }
}

fn add_bases(lits: &mut Vec<Lit>, bases: &[Var], terms: &[Term]) -> Result<(), NoMemory>
    requires { All (λ v. IsTrue (var_in v (flat_map term_vars terms.now))) bases.now }
    ensures { OnOk result (lits.new.items ≡ lits.old.items ++ map (λ v. above_zero (record { base = Some v; offset = least_of (offsets_at v terms.now) })) bases.now) }
{
    for base in bases {
        add_least(lits, *base, terms)?;
    }
    Ok(())
}

fn is_no_address(term: &Term) -> bool
    ensures { result ≡ (base_eq term.now.base None && int_le term.now.offset (pos 0)) }
{
    term.base().is_none() && term.offset() <= 0
}

/// Adds for each plain number that isn't positive that it is, which is false.
fn add_numbers(lits: &mut Vec<Lit>, terms: &[Term]) -> Result<(), NoMemory>
    ensures { OnOk result (lits.new.items ≡ lits.old.items ++ map above_zero (filter (λ t. base_eq t.base None && int_le t.offset (pos 0)) terms.now)) }
{
    for term in terms {
        if is_no_address(term) {
            lits.push(above_zero(*term))?;
        }
    }
    Ok(())
}

/// Adds that the addresses of the chunks are positive.
pub(crate) fn add_addresses(
    alloc: Global,
    lits: &mut Vec<Lit>,
    chunks: &[Chunk],
) -> Result<(), NoMemory>
    ensures { OnOk result (lits.new.items ≡ lits.old.items ++ address_lits (flat_map address chunks.now)) }
{
    let terms = addresses(alloc, chunks)?;
    let bases = bases_of(alloc, terms.as_slice())?;
    add_bases(lits, bases.as_slice(), terms.as_slice())?;
    add_numbers(lits, terms.as_slice())?;
    Ok(())
}
