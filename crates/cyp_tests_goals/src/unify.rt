ghost use Rattle.std.specs.Prelude.{[], IfOk, IsTrue, None, length, ◌∷◌, ◌≡◌, ◌≤◌};
ghost use Rattle.cyp_heap.specs.Chunks.{in_order};
ghost use Rattle.cyp_term.specs.TermValue.{IsTerm};
ghost use Rattle.cyp_term.specs.Terms.{var_term};
ghost use Rattle.cyp_term.specs.declared.term.Sort.TheVariants.{Int};

use cyp_heap::{Arg, BlockAt, CellAt, Chunk, Goal, Heap, InstOf};
use cyp_term::{List, Lit, NoMemory, SetTerm, Sort, Term, Var};
use cyp_unify::{Pair, frame_pairs};
use std::alloc::Global;
use std::test::Fail;

fn int(number: u8) -> Var
    ensures { result ≡ record { sort = Int; number = number } }
{
    Var {
        sort: Sort::Int,
        number,
    }
}

fn bare(number: u8) -> Term
    ensures { result ≡ var_term (record { sort = Int; number = number }) }
{
    Term::new(Some(int(number)), 0)
}

fn plain(value: i64) -> Term
    requires { IsTerm None value }
{
    Term::new(None, value)
}

fn none<T>(alloc: Global) -> List<T>
    ensures { result ≡ [] }
{
    List::from_vec(Vec::new(alloc))
}

fn one<T: Drop>(alloc: Global, item: T) -> Result<List<T>, NoMemory>
    ensures { IfOk result (λ xs. xs ≡ item ∷ []) }
{
    let mut items = none(alloc);
    items.push(alloc, item)?;
    Ok(items)
}

fn two<T: Drop>(alloc: Global, first: T, second: T) -> Result<List<T>, NoMemory>
    ensures { IfOk result (λ xs. xs ≡ first ∷ second ∷ []) }
{
    let mut items = one(alloc, first)?;
    items.push(alloc, second)?;
    Ok(items)
}

fn three<T: Drop>(alloc: Global, first: T, second: T, third: T) -> Result<List<T>, NoMemory>
    ensures { IfOk result (λ xs. xs ≡ first ∷ second ∷ third ∷ []) }
{
    let mut items = two(alloc, first, second)?;
    items.push(alloc, third)?;
    Ok(items)
}

fn set(alloc: Global, number: u8) -> Result<SetTerm, NoMemory> {
    let var = Var {
        sort: Sort::Set,
        number,
    };
    Ok(SetTerm::new(one(alloc, var)?, none(alloc)))
}

fn cell(at: Term, content: Term) -> CellAt
    ensures { result ≡ record { at = at; content = content } }
{
    CellAt { at, content }
}

/// An instance with an integer and a set, by these numbers.
fn inst(alloc: Global, pred: u8, number: u8) -> Result<InstOf, NoMemory> {
    let members = Arg::Set(set(alloc, number)?);
    Ok(InstOf {
        pred,
        args: two(alloc, Arg::Int(bare(number)), members)?,
        card: None,
        tag: 0,
    })
}

fn heap_of_one(alloc: Global, chunk: Chunk) -> Result<Heap, NoMemory>
    ensures { IfOk result (λ h. h.chunks ≡ chunk ∷ []) }
{
    Ok(Heap::new(one(alloc, chunk)?))
}

fn heap_of_three(alloc: Global, first: Chunk, second: Chunk, third: Chunk) -> Result<Heap, NoMemory>
    requires { IsTrue (in_order (first ∷ second ∷ third ∷ [])) }
    ensures { IfOk result (λ h. h.chunks ≡ first ∷ second ∷ third ∷ []) }
{
    Ok(Heap::new(three(alloc, first, second, third)?))
}

/// The pairs of a goal with these heaps.
fn framed(alloc: Global, pre: Heap, post: Heap) -> Result<List<Pair>, NoMemory>
    requires { length pre.chunks ≤ 256 }
{
    let goal = Goal {
        program: none(alloc),
        exist: none(alloc),
        pure_pre: none(alloc),
        pre,
        pure_post: none(alloc),
        post,
    };
    frame_pairs(alloc, &goal)
}

/// That the variables by these numbers are equal.
fn equal(post: u8, pre: u8) -> Lit {
    Lit::Eq(bare(post), bare(pre))
}

fn pair(alloc: Global, pre: u8, first: Lit, second: Lit) -> Result<Pair, NoMemory> {
    let lits = two(alloc, first, second)?;
    Ok(Pair { pre, lits })
}

/// A pair of two blocks.
fn pair_of_blocks(alloc: Global, pre: u8, post: u8, at: u8) -> Result<Pair, NoMemory> {
    let lits = one(alloc, equal(post, at))?;
    Ok(Pair { pre, lits })
}

#[test]
fn frames_a_cell_by_its_address_and_its_content(rt: HostRuntime) -> Result<(), Fail> {
    let alloc = rt.alloc();
    let pre = heap_of_one(alloc, Chunk::Cell(cell(bare(0), bare(1))))?;
    let post = heap_of_one(alloc, Chunk::Cell(cell(bare(0), plain(5))))?;
    let pairs = framed(alloc, pre, post)?;
    let only = pair(alloc, 0, equal(0, 0), Lit::Eq(plain(5), bare(1)))?;
    assert!(rt; pairs == one(alloc, only)?);
    Ok(())
}

fn block_and_cells(alloc: Global) -> Result<Heap, NoMemory>
    ensures { IfOk result (λ h. length h.chunks ≡ 3) }
{
    heap_of_three(
        alloc,
        Chunk::Block(BlockAt::new(bare(0), 2)),
        Chunk::Cell(cell(bare(1), bare(2))),
        Chunk::Cell(cell(bare(3), bare(4))),
    )
}

#[test]
fn pairs_a_cell_with_each_cell_and_no_block(rt: HostRuntime) -> Result<(), Fail> {
    let alloc = rt.alloc();
    let pre = block_and_cells(alloc)?;
    let post = heap_of_one(alloc, Chunk::Cell(cell(bare(5), bare(6))))?;
    let pairs = framed(alloc, pre, post)?;
    let first = pair(alloc, 1, equal(5, 1), equal(6, 2))?;
    let second = pair(alloc, 2, equal(5, 3), equal(6, 4))?;
    assert!(rt; pairs == two(alloc, first, second)?);
    Ok(())
}

fn instances(alloc: Global) -> Result<Heap, NoMemory>
    ensures { IfOk result (λ h. length h.chunks ≡ 3) }
{
    let first = inst(alloc, 1, 0)?;
    let second = inst(alloc, 0, 1)?;
    heap_of_three(
        alloc,
        Chunk::Inst(first),
        Chunk::Inst(second),
        Chunk::Cell(cell(bare(2), bare(2))),
    )
}

#[test]
fn pairs_an_instance_with_those_of_its_predicate(rt: HostRuntime) -> Result<(), Fail> {
    let alloc = rt.alloc();
    let pre = instances(alloc)?;
    let post = heap_of_one(alloc, Chunk::Inst(inst(alloc, 0, 3)?))?;
    let pairs = framed(alloc, pre, post)?;
    let members = Lit::Same(set(alloc, 3)?, set(alloc, 1)?);
    let only = pair(alloc, 1, equal(3, 1), members)?;
    assert!(rt; pairs == one(alloc, only)?);
    Ok(())
}

fn blocks(alloc: Global) -> Result<Heap, NoMemory>
    ensures { IfOk result (λ h. length h.chunks ≡ 3) }
{
    heap_of_three(
        alloc,
        Chunk::Block(BlockAt::new(bare(0), 2)),
        Chunk::Block(BlockAt::new(bare(1), 1)),
        Chunk::Block(BlockAt::new(bare(2), 2)),
    )
}

/// A block and a cell.
fn block_first(alloc: Global) -> Result<Heap, NoMemory> {
    let block = Chunk::Block(BlockAt::new(bare(3), 2));
    let chunks = two(alloc, block, Chunk::Cell(cell(bare(4), bare(4))))?;
    Ok(Heap::new(chunks))
}

#[test]
fn pairs_a_block_with_those_of_its_size(rt: HostRuntime) -> Result<(), Fail> {
    let alloc = rt.alloc();
    let pre = blocks(alloc)?;
    let post = block_first(alloc)?;
    let pairs = framed(alloc, pre, post)?;
    let first = pair_of_blocks(alloc, 0, 3, 0)?;
    let second = pair_of_blocks(alloc, 2, 3, 2)?;
    assert!(rt; pairs == two(alloc, first, second)?);
    Ok(())
}

#[test]
fn pairs_nothing_without_a_focus(rt: HostRuntime) -> Result<(), Fail> {
    let alloc = rt.alloc();
    let pre = blocks(alloc)?;
    let pairs = framed(alloc, pre, Heap::new(none(alloc)))?;
    assert!(rt; pairs == none(alloc));
    Ok(())
}
