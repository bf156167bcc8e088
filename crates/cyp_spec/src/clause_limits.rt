ghost use Rattle.std.specs.Prelude.{[], IfOk, OnOk, length, nat_le, ◌&&◌, ◌++◌, ◌≡◌, ◌≤◌};
ghost use Rattle.std.specs.List.{All, flat_map};
ghost use Rattle.cyp_heap.specs.PredsFormed.{is_clause_within};
ghost use Rattle.cyp_spec.specs.Elements.{ArgsOf, tree_elements};
ghost use Rattle.cyp_spec.specs.Small.{ClauseSmall};
ghost use Rattle.cyp_names.specs.NameFaults.{clause_faults, param_names, repeats};
ghost use Rattle.cyp_term.specs.Terms.{lit_elements};
ghost use Rattle.cyp_term.specs.declared.term.Sort.TheVariants.{Int, Set};
ghost use Rattle.cyp_names.specs.Specifications.{count_sort, read_clause};

use crate::elements::{add_args_elements, add_lits_elements, are_few};
use cyp_names::{Scope, clause_scope, params_of};
use cyp_reading::{read_args, read_lits};
use cyp_term::{Lit, NoMemory, Sort, Term};
use cyp_text::{ChunkTree, ClauseTree, ParamTree, PredTree};
use std::alloc::Global;

/// The limits of chunks and of literals of a clause.
const MOST_CHUNKS: usize = 8;

const MOST_LITS: usize = 8;

/// The limits of integers, sets and different element terms, of a clause as of a goal as it is
/// written.
pub(crate) const MOST_INTS: usize = 64;

pub(crate) const MOST_SETS: usize = 32;

pub(crate) const MOST_ELEMENTS: usize = 32;

/// Adds the element terms in the arguments of an instance; other chunks have none.
fn add_chunk_elements(
    alloc: Global,
    terms: &mut Vec<Term>,
    preds: &[PredTree],
    scope: &Scope<'_>,
    chunk: &ChunkTree,
) -> Result<(), NoMemory>
    requires few { length scope.now ≤ 255 }
    requires readable { ArgsOf preds.now scope.now chunk.now }
    ensures { OnOk result (terms.new.items ≡ terms.old.items ++ tree_elements preds.now scope.now chunk.now) }
{
    match chunk {
        ChunkTree::InstanceOf(name, args) => {
            let params = params_of(name, args.len(), preds);
            let args = read_args(alloc, scope, params, args.as_slice())?;
            add_args_elements(terms, args.as_slice())
        }
        _ => Ok(()),
    }
}

/// Adds the element terms of the chunks.
pub(crate) fn add_chunks_elements(
    alloc: Global,
    terms: &mut Vec<Term>,
    preds: &[PredTree],
    scope: &Scope<'_>,
    chunks: &[ChunkTree],
) -> Result<(), NoMemory>
    requires few { length scope.now ≤ 255 }
    requires readable { All (ArgsOf preds.now scope.now) chunks.now }
    ensures { OnOk result (terms.new.items ≡ terms.old.items ++ flat_map (tree_elements preds.now scope.now) chunks.now) }
{
    for chunk in chunks {
        add_chunk_elements(alloc, terms, preds, scope, chunk)?;
    }
    Ok(())
}

/// The element terms of the literals and the chunks.
fn elements_of(
    alloc: Global,
    preds: &[PredTree],
    scope: &Scope<'_>,
    lits: &[Lit],
    chunks: &[ChunkTree],
) -> Result<Vec<Term>, NoMemory>
    requires few { length scope.now ≤ 255 }
    requires readable { All (ArgsOf preds.now scope.now) chunks.now }
    ensures { IfOk result (λ v. v.items ≡ flat_map lit_elements lits.now ++ flat_map (tree_elements preds.now scope.now) chunks.now) }
{
    let mut terms = Vec::new(alloc);
    add_lits_elements(&mut terms, lits)?;
    add_chunks_elements(alloc, &mut terms, preds, scope, chunks)?;
    Ok(terms)
}

/// Whether the names of a scope are few enough.
pub(crate) fn are_names_few(scope: &Scope<'_>) -> bool
    ensures { result ≡ (nat_le (count_sort Int scope.now) 64 && nat_le (count_sort Set scope.now) 32) }
{
    scope.count(Sort::Int) <= MOST_INTS && scope.count(Sort::Set) <= MOST_SETS
}

/// Whether the clause of a predicate with these parameters passes no limit.
pub(crate) fn is_clause_within(
    alloc: Global,
    preds: &[PredTree],
    params: &[ParamTree],
    clause: &ClauseTree,
) -> Result<bool, NoMemory>
    requires once { repeats [] (param_names params.now) ≡ [] }
    requires right { clause_faults preds.now params.now clause.now ≡ [] }
    requires small { ClauseSmall clause.now }
    ensures { IfOk result (λ b. b ≡ is_clause_within (read_clause preds.now params.now clause.now)) }
{
    let chunks = clause.body.chunks.as_slice();
    if chunks.len() > MOST_CHUNKS {
        return Ok(false);
    }
    let scope = clause_scope(alloc, preds, params, clause)?;
    if !are_names_few(&scope) {
        return Ok(false);
    }
    let lits = read_lits(alloc, &scope, &clause.body.pure)?;
    if lits.len() > MOST_LITS {
        return Ok(false);
    }
    let terms = elements_of(alloc, preds, &scope, lits.as_slice(), chunks)?;
    let few = are_few(alloc, terms.as_slice(), MOST_ELEMENTS)?;
    Ok(few)
}
