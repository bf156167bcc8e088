ghost use Rattle.std.specs.Prelude.{IfOk, OnOk, length, map, ◌++◌, ◌≡◌, ◌≤◌};
ghost use Rattle.std.specs.List.{All};
ghost use Rattle.cyp_reading.specs.InScope.{clause_in};
ghost use Rattle.cyp_reading.specs.Mended.{mended_body};
ghost use Rattle.cyp_reading.specs.Readable.{ChunkReadable};
ghost use Rattle.cyp_reading.specs.ReadableTexts.{ClauseIn, ClauseReadable, PredReadable};
ghost use Rattle.cyp_names.specs.ReadTerms.{read_chunks};
ghost use Rattle.cyp_names.specs.Specifications.{read_clause, read_pred};
ghost use Rattle.cyp_names.specs.Uses.{param_sort};

use crate::chunks::read_chunks;
use crate::literals::{read_lit, read_lits};
use cyp_heap::{Clause, Heap, Pred};
use cyp_names::{Scope, clause_scope, param_sort};
use cyp_term::{Copied, List, NoMemory, Sort};
use cyp_text::{BodyTree, ClauseTree, ParamTree, PredTree};
use std::alloc::Global;

/// The heap of a body, where the sizes of blocks are brought into 1 to 8.
pub(crate) fn read_heap(
    alloc: Global,
    preds: &[PredTree],
    scope: &Scope<'_>,
    body: &BodyTree,
) -> Result<Heap, NoMemory>
    requires few { length scope.now ≤ 255 }
    requires readable { All (ChunkReadable preds.now scope.now) body.now.chunks }
    ensures { IfOk result (λ h. h ≡ record { chunks = read_chunks preds.now scope.now (mended_body body.now) }) }
{
    let chunks = read_chunks(alloc, preds, scope, body)?;
    Ok(Heap::new(chunks))
}

/// The clause in its scope.
fn clause_in(
    alloc: Global,
    preds: &[PredTree],
    scope: &Scope<'_>,
    tree: &ClauseTree,
) -> Result<Clause, NoMemory>
    requires { ClauseIn preds.now scope.now tree.now }
    ensures { IfOk result (λ c. c ≡ clause_in preds.now scope.now tree.now) }
{
    let guard = read_lit(alloc, scope, &tree.guard)?;
    let lits = read_lits(alloc, scope, &tree.body.pure)?;
    let heap = read_heap(alloc, preds, scope, &tree.body)?;
    let ints = scope.count(Sort::Int) as u8;
    let sets = scope.count(Sort::Set) as u8;
    Ok(Clause {
        guard,
        lits,
        heap,
        ints,
        sets,
    })
}

/// The clause of a predicate with these parameters.
fn read_clause(
    alloc: Global,
    preds: &[PredTree],
    params: &[ParamTree],
    tree: &ClauseTree,
) -> Result<Clause, NoMemory>
    requires { ClauseReadable preds.now params.now tree.now }
    ensures { IfOk result (λ c. c ≡ read_clause preds.now params.now tree.now) }
{
    let scope = clause_scope(alloc, preds, params, tree)?;
    let clause = clause_in(alloc, preds, &scope, tree)?;
    Ok(clause)
}

/// Adds clauses of a predicate with these parameters.
fn add_clauses(
    alloc: Global,
    clauses: &mut Vec<Clause>,
    preds: &[PredTree],
    params: &[ParamTree],
    trees: &[ClauseTree],
) -> Result<(), NoMemory>
    requires { All (ClauseReadable preds.now params.now) trees.now }
    ensures { OnOk result (clauses.new.items ≡ clauses.old.items ++ map (read_clause preds.now params.now) trees.now) }
{
    for tree in trees {
        clauses.push(read_clause(alloc, preds, params, tree)?)?;
    }
    Ok(())
}

/// The clauses of a predicate.
fn read_clauses(
    alloc: Global,
    preds: &[PredTree],
    tree: &PredTree,
) -> Result<List<Clause>, NoMemory>
    requires { PredReadable preds.now tree.now }
    ensures { IfOk result (λ cs. cs ≡ (read_pred preds.now tree.now).clauses) }
{
    let params = tree.params.as_slice();
    let mut clauses = Vec::new(alloc);
    clauses.push(read_clause(alloc, preds, params, &tree.first)?)?;
    add_clauses(alloc, &mut clauses, preds, params, tree.others.as_slice())?;
    Ok(List::from_vec(clauses))
}

/// The sorts of the parameters.
fn read_sorts(alloc: Global, params: &[ParamTree]) -> Result<List<Sort>, NoMemory>
    ensures { IfOk result (λ ss. ss ≡ map param_sort params.now) }
{
    let mut sorts = Vec::new(alloc);
    for param in params {
        sorts.push(param_sort(param))?;
    }
    Ok(List::from_vec(sorts))
}

fn read_pred(alloc: Global, preds: &[PredTree], tree: &PredTree) -> Result<Pred, NoMemory>
    requires { PredReadable preds.now tree.now }
    ensures { IfOk result (λ q. q ≡ read_pred preds.now tree.now) }
{
    let name = tree.name.text.text(alloc)?;
    let params = read_sorts(alloc, tree.params.as_slice())?;
    let clauses = read_clauses(alloc, preds, tree)?;
    Ok(Pred {
        name,
        params,
        clauses,
    })
}

/// The predicates in the order of the text.
pub fn read_preds(alloc: Global, preds: &[PredTree]) -> Result<List<Pred>, NoMemory>
    requires { All (PredReadable preds.now) preds.now }
    ensures { IfOk result (λ qs. qs ≡ map (read_pred preds.now) preds.now) }
{
    let mut read = Vec::new(alloc);
    for pred in preds {
        read.push(read_pred(alloc, preds, pred)?)?;
    }
    Ok(List::from_vec(read))
}
