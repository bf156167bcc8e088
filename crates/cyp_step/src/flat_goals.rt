//! The goals that the rules which unfold nothing leave to do, as the rules change them. The answer
//! is `None` where the rule isn't allowed.

ghost use Rattle.std.specs.Prelude.{[], IfOk, IfSome, Some, count_by, length, not, option_map, pos, slice_get, slice_set, ◌<◌, ◌≡◌, ◌≤◌};
ghost use Rattle.std.specs.List.{list_any};
ghost use Rattle.cyp_goal.specs.Facts.{facts};
ghost use Rattle.cyp_heap.specs.Chunks.{without};
ghost use Rattle.cyp_step.specs.FlatGoals.{after_free, after_pick, after_read, after_write, block_in, can_be_freed, can_be_picked, can_be_read, can_be_written, cell_in, is_to_be_written, read_goal, with_post_lit, with_pre};
ghost use Rattle.cyp_step.specs.FlatRules.{block_cells, equal_vars, first_exist, first_place, is_cell_at, is_place, is_universal, is_written_at, occurs_elsewhere, without_cells};
ghost use Rattle.cyp_term.specs.Terms.{plus, set_var, var_eq};
ghost use Rattle.cyp_term.specs.declared.term.Sort.TheVariants.{Int, Set};

use crate::existentials::{first_exist, has_exist, is_among, is_program_expr};
use crate::occurs::{chunk_and_lit_vars, goal_vars};
use crate::showing::{follows, has_inst};
use cyp_goal::facts;
use cyp_heap::{BlockAt, CellAt, Chunk, Goal, Heap};
use cyp_term::{Copied, List, Lit, NoMemory, SetTerm, Sort, Term, Var};
use std::alloc::Global;

/// The cell at the place.
pub(crate) fn cell_in(chunks: &[Chunk], place: usize) -> Option<CellAt>
    ensures { result ≡ cell_in (slice_get chunks.now place) }
{
    match chunks.get(place) {
        Some(Chunk::Cell(cell)) => Some(*cell),
        _ => None,
    }
}

/// The block at the place.
pub(crate) fn block_in(chunks: &[Chunk], place: usize) -> Option<BlockAt>
    ensures { result ≡ block_in (slice_get chunks.now place) }
{
    match chunks.get(place) {
        Some(Chunk::Block(block)) => Some(*block),
        _ => None,
    }
}

/// A copy of the goal with another precondition.
pub(crate) fn with_pre(alloc: Global, goal: &Goal, pre: Heap) -> Result<Goal, NoMemory>
    ensures { IfOk result (λ g. g ≡ with_pre goal.now pre.chunks) }
{
    Ok(Goal {
        program: goal.program.copy(alloc)?,
        exist: goal.exist.copy(alloc)?,
        pure_pre: goal.pure_pre.copy(alloc)?,
        pre,
        pure_post: goal.pure_post.copy(alloc)?,
        post: goal.post.copy(alloc)?,
    })
}

/// The precondition where the cell at the place has this content.
fn rewritten(
    alloc: Global,
    goal: &Goal,
    place: u8,
    cell: &CellAt,
    content: Term,
) -> Result<Heap, NoMemory>
    requires { slice_get goal.now.pre.chunks place ≡ Some (Chunk.Cell cell.now) }
    ensures { IfOk result (λ h. h.chunks ≡ slice_set goal.now.pre.chunks place (Chunk.Cell (record { at = cell.now.at; content = content }))) }
{
    let mut pre = goal.pre.copy(alloc)?;
    pre.rewrite(place, content);
    Ok(pre)
}

fn count(vars: &[Var], var: Var) -> usize
    ensures { result ≡ count_by (var_eq var) vars.now }
{
    vars.iter().filter(|other| var == **other).count()
}

/// Whether the term's variable stands more than once in chunks and literals.
fn occurs_elsewhere(alloc: Global, goal: &Goal, term: Term) -> Result<bool, NoMemory>
    ensures { IfOk result (λ b. b ≡ occurs_elsewhere goal.now term) }
{
    let Some(var) = term.base() else {
        return Ok(false);
    };
    let vars = chunk_and_lit_vars(alloc, goal)?;
    Ok(count(vars.as_slice(), var) >= 2)
}

fn can_be_read(alloc: Global, goal: &Goal, cell: CellAt) -> Result<bool, NoMemory>
    ensures { IfOk result (λ b. b ≡ can_be_read goal.now cell) }
{
    if !is_program_expr(goal, cell.at) || is_program_expr(goal, cell.content) {
        return Ok(false);
    }
    occurs_elsewhere(alloc, goal, cell.content)
}

fn read_goal(
    alloc: Global,
    goal: &Goal,
    place: u8,
    var: Var,
    cell: &CellAt,
) -> Result<Goal, NoMemory>
    requires cell { slice_get goal.now.pre.chunks place ≡ Some (Chunk.Cell cell.now) }
    requires sort { var.sort ≡ Int }
    ensures { IfOk result (λ g. g ≡ read_goal goal.now place var cell.now) }
{
    let content = Term::new(Some(var), 0);
    let pre = rewritten(alloc, goal, place, cell, content)?;
    let lit = Lit::Eq(content, cell.content);
    let mut read = with_pre(alloc, goal, pre)?;
    read.program.push(alloc, var)?;
    read.pure_pre.push(alloc, lit)?;
    Ok(read)
}

/// The goal after a read of the cell at the place into a new program variable.
pub(crate) fn after_read(
    alloc: Global,
    goal: &Goal,
    place: u8,
    var: Var,
) -> Result<Option<Goal>, NoMemory>
    requires { var.sort ≡ Int }
    ensures { IfOk result (λ g. g ≡ after_read goal.now place var (cell_in (slice_get goal.now.pre.chunks place))) }
{
    let Some(cell) = cell_in(goal.pre.chunks(), place as usize) else {
        return Ok(None);
    };
    if !can_be_read(alloc, goal, cell)? {
        return Ok(None);
    }
    Ok(Some(read_goal(alloc, goal, place, var, &cell)?))
}

/// Whether the program can store the focus's content in the cell.
fn can_be_written(goal: &Goal, focus: CellAt, cell: CellAt) -> bool
    ensures { result ≡ can_be_written goal.now focus cell }
{
    !has_exist(goal, focus.at)
        && is_program_expr(goal, cell.at)
        && is_program_expr(goal, focus.content)
}

/// Whether the chunk is a cell whose address is shown equal to the term.
fn is_cell_shown_at(
    alloc: Global,
    goal: &Goal,
    known: &[Lit],
    at: Term,
    chunk: &Chunk,
) -> Result<bool, NoMemory>
    requires { known.now ≡ facts goal.now }
    ensures { IfOk result (λ b. b ≡ is_cell_at goal.now at chunk.now) }
{
    let Chunk::Cell(cell) = chunk else {
        return Ok(false);
    };
    let lits = [Lit::Eq(at, cell.at)];
    follows(alloc, known, &lits)
}

/// Whether none of the chunks is a cell at an address shown equal.
fn has_no_cell(
    alloc: Global,
    goal: &Goal,
    known: &[Lit],
    at: Term,
    chunks: &[Chunk],
) -> Result<bool, NoMemory>
    requires { known.now ≡ facts goal.now }
    ensures { IfOk result (λ b. b ≡ not (list_any (is_cell_at goal.now at) chunks.now)) }
{
    for chunk in chunks {
        if is_cell_shown_at(alloc, goal, known, at, chunk)? {
            return Ok(false);
        }
    }
    Ok(true)
}

/// Whether the first of the chunks that is a cell at an address shown equal is at this place. The chunk there is looked at first.
fn is_first_cell(
    alloc: Global,
    goal: &Goal,
    known: &[Lit],
    at: Term,
    chunks: &[Chunk],
    place: u8,
) -> Result<bool, NoMemory>
    requires { known.now ≡ facts goal.now }
    ensures { IfOk result (λ b. b ≡ is_place place (first_place (is_cell_at goal.now at) 0 chunks.now)) }
{
    let place = place as usize;
    if place >= chunks.len() {
        return Ok(false);
    }
    if !is_cell_shown_at(alloc, goal, known, at, &chunks[place])? {
        return Ok(false);
    }
    has_no_cell(alloc, goal, known, at, &chunks[..place])
}

/// Whether the focus's content is to be stored in the cell at the place.
fn is_to_be_written(
    alloc: Global,
    goal: &Goal,
    place: u8,
    focus: CellAt,
    cell: CellAt,
) -> Result<bool, NoMemory>
    ensures { IfOk result (λ b. b ≡ is_to_be_written goal.now place focus cell) }
{
    if !can_be_written(goal, focus, cell) {
        return Ok(false);
    }
    let known = facts(alloc, goal)?;
    let known = known.as_slice();
    if !is_first_cell(alloc, goal, known, focus.at, goal.pre.chunks(), place)? {
        return Ok(false);
    }
    let lits = [Lit::Eq(focus.content, cell.content)];
    Ok(!follows(alloc, known, &lits)?)
}

/// The goal after the focus's content is stored in the cell at the place.
pub(crate) fn after_write(alloc: Global, goal: &Goal, place: u8) -> Result<Option<Goal>, NoMemory>
    ensures { IfOk result (λ g. g ≡ after_write goal.now place (cell_in (slice_get goal.now.post.chunks 0)) (cell_in (slice_get goal.now.pre.chunks place))) }
{
    let Some(focus) = cell_in(goal.post.chunks(), 0) else {
        return Ok(None);
    };
    let Some(cell) = cell_in(goal.pre.chunks(), place as usize) else {
        return Ok(None);
    };
    if !is_to_be_written(alloc, goal, place, focus, cell)? {
        return Ok(None);
    }
    let pre = rewritten(alloc, goal, place, &cell, focus.content)?;
    Ok(Some(with_pre(alloc, goal, pre)?))
}

/// Whether the chunk is a cell whose address is the term plus the number.
fn is_written_at(chunk: &Chunk, at: Term, more: u8) -> bool
    ensures { result ≡ is_written_at (plus at (pos more)) chunk.now }
{
    match chunk {
        Chunk::Cell(cell) => {
            cell.at.base() == at.base() && cell.at.offset() == at.offset() + i64::from(more)
        }
        _ => false,
    }
}

/// The place of the first of the chunks that is such a cell.
fn first_written(chunks: &[Chunk], at: Term, more: u8) -> Option<usize>
    ensures place { result ≡ first_place (is_written_at (plus at (pos more))) 0 chunks.now }
    ensures within { IfSome result (λ k. k < length chunks.now) }
{
    for k in 0..chunks.len() {
        if is_written_at(&chunks[k], at, more) {
            return Some(k);
        }
    }
    None
}

/// The heap without the first cell written at each address of the block, or `None` where one has no
/// cell.
fn without_cells(mut heap: Heap, block: BlockAt) -> Option<Heap>
    requires { length heap.chunks ≤ 16 }
    ensures { option_map (λ h. h.chunks) result ≡ without_cells (block_cells block.at block.size) heap.chunks }
{
    let at = block.at();
    for more in 0..block.size() {
        let place = first_written(heap.chunks(), at, more)?;
        let _cell = heap.remove(place as u8);
    }
    Some(heap)
}

/// The precondition without the block at the place and its cells, or `None` where a cell of it isn't
/// written.
fn freed(alloc: Global, goal: &Goal, place: u8, block: BlockAt) -> Result<Option<Heap>, NoMemory>
    requires few { length goal.now.pre.chunks ≤ 16 }
    requires place { place < length goal.now.pre.chunks }
    ensures { IfOk result (λ h. option_map (λ h. h.chunks) h ≡ without_cells (block_cells block.at block.size) (without goal.now.pre.chunks place)) }
{
    let mut pre = goal.pre.copy(alloc)?;
    let _block = pre.remove(place);
    Ok(without_cells(pre, block))
}

fn can_be_freed(goal: &Goal, block: BlockAt) -> bool
    ensures { result ≡ can_be_freed goal.now block }
{
    goal.post.chunks().is_empty() && is_program_expr(goal, block.at())
}

/// The goal after the block at the place is freed.
pub(crate) fn after_free(alloc: Global, goal: &Goal, place: u8) -> Result<Option<Goal>, NoMemory>
    requires { length goal.now.pre.chunks ≤ 16 }
    ensures { IfOk result (λ g. g ≡ after_free goal.now place (block_in (slice_get goal.now.pre.chunks place))) }
{
    let Some(block) = block_in(goal.pre.chunks(), place as usize) else {
        return Ok(None);
    };
    if !can_be_freed(goal, block) {
        return Ok(None);
    }
    match freed(alloc, goal, place, block)? {
        Some(pre) => Ok(Some(with_pre(alloc, goal, pre)?)),
        None => Ok(None),
    }
}

/// Whether the variable is of this sort, no cardinality and no existential, and occurs in the goal.
fn is_universal(alloc: Global, goal: &Goal, sort: Sort, var: Var) -> Result<bool, NoMemory>
    ensures { IfOk result (λ b. b ≡ is_universal goal.now sort var) }
{
    if var.sort != sort || sort == Sort::Card || is_among(var, goal.exist.as_slice()) {
        return Ok(false);
    }
    let vars = goal_vars(alloc, goal)?;
    Ok(is_among(var, vars.as_slice()))
}

/// The set of the variable alone.
pub(crate) fn set_of(alloc: Global, var: Var) -> Result<SetTerm, NoMemory>
    requires { var.sort ≡ Set }
    ensures { IfOk result (λ u. u ≡ set_var var) }
{
    let mut vars = Vec::new(alloc);
    vars.push(var)?;
    let elems = List::from_vec(Vec::new(alloc));
    Ok(SetTerm::new(List::from_vec(vars), elems))
}

/// The literal by which two variables of one sort are equal.
fn equal_vars(alloc: Global, a: Var, b: Var) -> Result<Lit, NoMemory>
    requires { b.sort ≡ a.sort }
    ensures { IfOk result (λ l. l ≡ equal_vars a b) }
{
    if a.sort == Sort::Set {
        return Ok(Lit::Same(set_of(alloc, a)?, set_of(alloc, b)?));
    }
    Ok(Lit::Eq(Term::new(Some(a), 0), Term::new(Some(b), 0)))
}

/// Whether an existential of this sort may be taken to be the variable.
fn can_be_picked(alloc: Global, goal: &Goal, sort: Sort, var: Var) -> Result<bool, NoMemory>
    ensures { IfOk result (λ b. b ≡ can_be_picked goal.now sort var) }
{
    if has_inst(goal.post.chunks()) {
        return Ok(false);
    }
    is_universal(alloc, goal, sort, var)
}

/// The goal where the existential is this variable, of the same sort.
fn picked_goal(alloc: Global, goal: &Goal, exist: Var, var: Var) -> Result<Goal, NoMemory>
    requires { var.sort ≡ exist.sort }
    ensures { IfOk result (λ g. g ≡ with_post_lit goal.now (equal_vars exist var)) }
{
    let lit = equal_vars(alloc, exist, var)?;
    let mut picked = goal.copy(alloc)?;
    picked.pure_post.push(alloc, lit)?;
    Ok(picked)
}

/// The goal where the first existential of its literals is this variable.
pub(crate) fn after_pick(alloc: Global, goal: &Goal, var: Var) -> Result<Option<Goal>, NoMemory>
    ensures { IfOk result (λ g. g ≡ after_pick goal.now var (first_exist goal.now)) }
{
    let Some(exist) = first_exist(alloc, goal)? else {
        return Ok(None);
    };
    if !can_be_picked(alloc, goal, exist.sort, var)? {
        return Ok(None);
    }
    Ok(Some(picked_goal(alloc, goal, exist, var)?))
}
