//! How the focus, the first chunk of the postcondition, is framed.

ghost use Rattle.std.specs.Prelude.{◌≡◌, [], ◌∷◌, ◌++◌, ◌≤◌, IfOk, OnOk, filter, length, map};
ghost use Rattle.cyp_unify.specs.Frames.{alike, arg_equalities, arg_equality, frame_lits, frame_pairs, with_places};

use crate::found::Pair;
use cyp_heap::{Arg, Chunk, Goal};
use cyp_term::{Copied, List, Lit, NoMemory};
use std::alloc::Global;

/// Whether these are instances of one predicate, blocks of one size, or two cells.
pub(crate) fn are_alike(chunk: &Chunk, other: &Chunk) -> bool
    ensures { result ≡ alike chunk.now other.now }
{
    match (chunk, other) {
        (Chunk::Inst(inst), Chunk::Inst(other)) => inst.pred == other.pred,
        (Chunk::Block(block), Chunk::Block(other)) => block.size() == other.size(),
        (Chunk::Cell(_), Chunk::Cell(_)) => true,
        _ => false,
    }
}

/// Adds that two arguments of one sort are equal.
fn add_equality(alloc: Global, lits: &mut Vec<Lit>, post: &Arg, pre: &Arg) -> Result<(), NoMemory>
    ensures { OnOk result (lits.new.items ≡ lits.old.items ++ arg_equality post.now pre.now) }
{
    match (post, pre) {
        (Arg::Int(to), Arg::Int(from)) => lits.push(Lit::Eq(*to, *from))?,
        (Arg::Set(to), Arg::Set(from)) => {
            lits.push(Lit::Same(to.copy(alloc)?, from.copy(alloc)?))?;
        }
        _ => {}
    }
    Ok(())
}

/// That the arguments at equal places are equal.
fn arg_equalities(alloc: Global, post: &[Arg], pre: &[Arg]) -> Result<List<Lit>, NoMemory>
    ensures { IfOk result (λ ls. ls ≡ arg_equalities post.now pre.now) }
{
    let mut lits = Vec::new(alloc);
    for (to, from) in post.iter().zip(pre) {
        add_equality(alloc, &mut lits, to, from)?;
    }
    Ok(List::from_vec(lits))
}

fn one<T: Drop>(alloc: Global, item: T) -> Result<List<T>, NoMemory>
    ensures { IfOk result (λ xs. xs ≡ item ∷ []) }
{
    let mut items = Vec::with_capacity(alloc, 1)?;
    items.push(item)?;
    Ok(List::from_vec(items))
}

fn two<T: Drop>(alloc: Global, first: T, second: T) -> Result<List<T>, NoMemory>
    ensures { IfOk result (λ xs. xs ≡ first ∷ second ∷ []) }
{
    let mut items = Vec::with_capacity(alloc, 2)?;
    items.push(first)?;
    items.push(second)?;
    Ok(List::from_vec(items))
}

/// What makes the chunk of the post equal to that of the pre.
fn frame_lits(alloc: Global, post: &Chunk, pre: &Chunk) -> Result<List<Lit>, NoMemory>
    ensures { IfOk result (λ ls. ls ≡ frame_lits post.now pre.now) }
{
    match (post, pre) {
        (Chunk::Inst(to), Chunk::Inst(from)) => {
            arg_equalities(alloc, to.args.as_slice(), from.args.as_slice())
        }
        (Chunk::Block(to), Chunk::Block(from)) => one(alloc, Lit::Eq(to.at(), from.at())),
        (Chunk::Cell(to), Chunk::Cell(from)) => {
            let address = Lit::Eq(to.at, from.at);
            let content = Lit::Eq(to.content, from.content);
            two(alloc, address, content)
        }
        _ => Ok(List::from_vec(Vec::new(alloc))),
    }
}

/// The focus with each of the chunks that is alike.
fn pairs_with(alloc: Global, focus: &Chunk, chunks: &[Chunk]) -> Result<List<Pair>, NoMemory>
    requires { length chunks.now ≤ 256 }
    ensures { IfOk result (λ ps. ps ≡ map (λ p. record { pre = p.0; lits = frame_lits focus.now p.1 }) (filter (λ p. alike focus.now p.1) (with_places 0 chunks.now))) }
{
    let mut pairs = Vec::new(alloc);
    for place in 0..chunks.len() {
        let chunk = &chunks[place];
        if are_alike(focus, chunk) {
            let lits = frame_lits(alloc, focus, chunk)?;
            pairs.push(Pair {
                pre: place as u8,
                lits,
            })?;
        }
    }
    Ok(List::from_vec(pairs))
}

/// The focus with each chunk of the precondition that is of its kind, and of its predicate or size.
/// The focus is the first chunk of the postcondition; without one there is no pair.
pub fn frame_pairs(alloc: Global, goal: &Goal) -> Result<List<Pair>, NoMemory>
    requires { length goal.now.pre.chunks ≤ 256 }
    ensures { IfOk result (λ ps. ps ≡ frame_pairs goal.now) }
{
    match goal.post.chunks().first() {
        Some(focus) => pairs_with(alloc, focus, goal.pre.chunks()),
        None => Ok(List::from_vec(Vec::new(alloc))),
    }
}
