//! What goals and predicates keep by their types. A caller that reaches no private field knows none of it, so each part is
//! looked at. Nothing is computed.

ghost use Rattle.std.specs.Prelude.{IsTrue, true, ◌≡◌, ◌≤◌};
ghost use Rattle.std.specs.List.{list_all};
ghost use Rattle.cyp_goal.specs.Named.{no_set, parts_fit};
ghost use Rattle.cyp_goal.specs.Raw.{arg_fits, lit_fits, set_fits, term_fits};
ghost use Rattle.cyp_heap.specs.Chunks.{in_order};
ghost use Rattle.cyp_heap.specs.PredsFormed.{IsFormedPreds};
ghost use Rattle.cyp_heap.specs.declared.pred.Clause.{Clause};
ghost use Rattle.cyp_term.specs.Terms.{is_set_var};
ghost use Rattle.cyp_sound.specs.Kept.{IsKept, are_small, is_kept, is_small};

use cyp_heap::{Arg, BlockAt, Chunk, Clause, Goal, Heap, Pred, Preds};
use cyp_term::{Lit, SetTerm, Term};

fn keep_term(term: &Term)
    ensures { IsTrue (term_fits no_set term.now) }
{
    let _ = term.base();
}

fn keep_terms(terms: &[Term])
    ensures { IsTrue (list_all (term_fits no_set) terms.now) }
{
    for term in terms {
        keep_term(term);
    }
}

fn keep_set(set: &SetTerm)
    ensures { IsTrue (set_fits no_set is_set_var set.now) }
{
    let _ = set.vars();
    keep_terms(set.elems());
}

fn keep_lit(lit: &Lit)
    ensures { IsTrue (lit_fits no_set is_set_var lit.now) }
{
    match lit {
        Lit::Eq(a, b) | Lit::Ne(a, b) | Lit::Le(a, b) | Lit::Lt(a, b) => {
            keep_term(a);
            keep_term(b);
        }
        Lit::Same(a, b) | Lit::NotSame(a, b) | Lit::Sub(a, b) | Lit::NotSub(a, b) => {
            keep_set(a);
            keep_set(b);
        }
        Lit::Member(a, b) | Lit::NotMember(a, b) => {
            keep_term(a);
            keep_set(b);
        }
    }
}

fn keep_lits(lits: &[Lit])
    ensures { IsTrue (list_all (lit_fits no_set is_set_var) lits.now) }
{
    for lit in lits {
        keep_lit(lit);
    }
}

fn keep_arg(arg: &Arg)
    ensures { IsTrue (arg_fits no_set is_set_var arg.now) }
{
    match arg {
        Arg::Int(term) => keep_term(term),
        Arg::Set(set) => keep_set(set),
    }
}

fn keep_args(args: &[Arg])
    ensures { IsTrue (list_all (arg_fits no_set is_set_var) args.now) }
{
    for arg in args {
        keep_arg(arg);
    }
}

/// Taken by value, a block tells what its type keeps.
fn keep_block(block: BlockAt)
    ensures { block.size ≤ 8 }
{}

fn keep_chunk(chunk: &Chunk)
    ensures { IsTrue (is_kept chunk.now) }
{
    match chunk {
        Chunk::Inst(inst) => keep_args(inst.args.as_slice()),
        Chunk::Block(block) => {
            let at = block.at();
            keep_term(&at);
            keep_block(*block);
        }
        Chunk::Cell(cell) => {
            keep_term(&cell.at);
            keep_term(&cell.content);
        }
    }
}

fn keep_chunks(chunks: &[Chunk])
    ensures { IsTrue (list_all is_kept chunks.now) }
{
    for chunk in chunks {
        keep_chunk(chunk);
    }
}

fn keep_heap(heap: &Heap)
    ensures order { IsTrue (in_order heap.now.chunks) }
    ensures fits { list_all parts_fit heap.now.chunks ≡ true }
    ensures small { IsTrue (list_all is_small heap.now.chunks) }
{
    keep_chunks(heap.chunks());
}

fn keep_clauses(clauses: &[Clause])
    ensures { IsTrue (list_all (λ (c : Clause). list_all is_small c.heap.chunks) clauses.now) }
{
    for clause in clauses {
        keep_heap(&clause.heap);
    }
}

fn keep_list(list: &[Pred])
    ensures { IsTrue (are_small (record { list = list.now })) }
{
    for pred in list {
        keep_clauses(pred.clauses.as_slice());
    }
}

/// Law: predicates are formed, and their blocks have at most 8 cells.
pub(crate) fn keep_preds(preds: &Preds)
    ensures formed { IsFormedPreds preds.now }
    ensures small { IsTrue (are_small preds.now) }
{
    keep_list(preds.list());
}

/// Law: the chunks of a goal are in order, its variables have the sorts of their places, and its blocks at most 8 cells.
pub(crate) fn keep_goal(goal: &Goal)
    ensures { IsKept goal.now }
{
    keep_lits(goal.pure_pre.as_slice());
    keep_heap(&goal.pre);
    keep_lits(goal.pure_post.as_slice());
    keep_heap(&goal.post);
}
