//! The goal after a block is allocated at a new program variable.

ghost use Rattle.std.specs.Prelude.{IfOk, length, nat_lt, pos, slice_get, suc, ◌+◌, ◌≡◌, ◌≤◌};
ghost use Rattle.std.specs.List.{position_or_len};
ghost use Rattle.cyp_heap.specs.Chunks.{kind_rank};
ghost use Rattle.cyp_heap.specs.declared.chunk.Chunk.TheVariants.{Cell};
ghost use Rattle.cyp_step.specs.FlatGoals.{after_alloc, allocated_goal, block_in, with_block};
ghost use Rattle.cyp_step.specs.FlatRules.{is_bare_open};
ghost use Rattle.cyp_term.specs.Terms.{plus, var_term};
ghost use Rattle.cyp_term.specs.declared.term.Sort.TheVariants.{Int};

use crate::existentials::has_exist;
use crate::flat_goals::{block_in, with_pre};
use cyp_heap::{BlockAt, CellAt, Chunk, Goal, Heap};
use cyp_term::{Copied, Lit, NoMemory, Sort, Term, Var};
use std::alloc::Global;

/// Whether the term is an existential alone.
fn is_bare_open(goal: &Goal, term: Term) -> bool
    ensures { result ≡ is_bare_open goal.now term }
{
    has_exist(goal, term) && term.offset() == 0
}

fn is_cell(chunk: &Chunk) -> bool
    ensures { result ≡ nat_lt 1 (kind_rank chunk.now) }
{
    match chunk {
        Chunk::Inst(_) | Chunk::Block(_) => false,
        Chunk::Cell(_) => true,
    }
}

/// The place of the first cell.
fn first_cell(chunks: &[Chunk]) -> usize
    ensures within { result ≤ length chunks.now }
    ensures place { result ≡ position_or_len (λ c. nat_lt 1 (kind_rank c)) chunks.now }
{
    for place in 0..chunks.len() {
        if is_cell(&chunks[place]) {
            return place;
        }
    }
    chunks.len()
}

/// The cell of a block at the variable that is so far behind its base.
fn new_cell(var: Var, more: u8) -> Chunk
    requires sort { var.sort ≡ Int }
    requires number { var.number ≤ 32 }
    requires more { more ≤ 7 }
    ensures { result ≡ Cell (record { at = plus (var_term var) (pos more); content = var_term (record { sort = Int; number = suc var.number + more }) }) }
{
    let content = Var {
        sort: Sort::Int,
        number: var.number + 1 + more,
    };
    Chunk::Cell(CellAt {
        at: Term::new(Some(var), i64::from(more)),
        content: Term::new(Some(content), 0),
    })
}

/// The heap with a block of this size at the variable, and with its cells, whose contents are the
/// variables behind it.
fn with_block(alloc: Global, pre: Heap, var: Var, size: u8) -> Result<Heap, NoMemory>
    requires sort { var.sort ≡ Int }
    requires number { var.number ≤ 32 }
    requires least { 1 ≤ size }
    requires most { size ≤ 8 }
    ensures { IfOk result (λ h. h.chunks ≡ with_block pre.chunks var size) }
{
    let mut chunks = pre.into_chunks();
    let place = first_cell(chunks.as_slice());
    let block = BlockAt::new(Term::new(Some(var), 0), size);
    chunks.insert(alloc, place, Chunk::Block(block))?;
    for more in 0..size {
        chunks.push(alloc, new_cell(var, more))?;
    }
    Ok(Heap::new(chunks))
}

/// The goal with a block at the variable that is as large as this one, the focus.
fn allocated_goal(alloc: Global, goal: &Goal, var: Var, block: BlockAt) -> Result<Goal, NoMemory>
    requires sort { var.sort ≡ Int }
    requires number { var.number ≤ 32 }
    ensures { IfOk result (λ g. g ≡ allocated_goal goal.now var block) }
{
    let pre = with_block(alloc, goal.pre.copy(alloc)?, var, block.size())?;
    let lit = Lit::Eq(block.at(), Term::new(Some(var), 0));
    let mut allocated = with_pre(alloc, goal, pre)?;
    allocated.program.push(alloc, var)?;
    allocated.pure_post.push(alloc, lit)?;
    Ok(allocated)
}

/// The goal after a block like the focus is allocated at the variable, which is new.
pub(crate) fn after_alloc(alloc: Global, goal: &Goal, var: Var) -> Result<Option<Goal>, NoMemory>
    requires sort { var.sort ≡ Int }
    requires number { var.number ≤ 32 }
    ensures { IfOk result (λ g. g ≡ after_alloc goal.now var (block_in (slice_get goal.now.post.chunks 0))) }
{
    let Some(block) = block_in(goal.post.chunks(), 0) else {
        return Ok(None);
    };
    if !is_bare_open(goal, block.at()) {
        return Ok(None);
    }
    Ok(Some(allocated_goal(alloc, goal, var, block)?))
}
