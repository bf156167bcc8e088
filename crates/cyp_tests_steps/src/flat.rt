ghost use Rattle.std.specs.Prelude.{[], ◌∷◌, IfOk, ◌≡◌};
ghost use Rattle.cyp_heap.specs.Chunks.{insts};
ghost use Rattle.cyp_term.specs.TermValue.{IsTerm};
ghost use Rattle.cyp_term.specs.declared.term.Sort.TheVariants.{Int};

use cyp_flat::{flat_rows, pick_rows};
use cyp_goal::{TooLarge, normal};
use cyp_heap::{CellAt, Chunk, Goal, Heap, Node, Preds, Raw};
use cyp_step::{Row, Rule};
use cyp_term::{Fail as Refused, List, Lit, NoMemory, Shared, Sort, Term, Var};
use std::alloc::Global;
use std::test::Fail;

fn int(number: u8) -> Var
    ensures { result ≡ record { sort = Int; number = number } }
{
    Var {
        sort: Sort::Int,
        number,
    }
}

fn bare(number: u8) -> Term {
    Term::new(Some(int(number)), 0)
}

fn plain(value: i64) -> Term
    requires { IsTerm None value }
{
    Term::new(None, value)
}

fn none<T>(alloc: Global) -> List<T>
    ensures { result ≡ [] }
{
    List::from_vec(Vec::new(alloc))
}

fn one<T: Drop>(alloc: Global, item: T) -> Result<List<T>, NoMemory>
    ensures { IfOk result (λ xs. xs ≡ item ∷ []) }
{
    let mut items = none(alloc);
    items.push(alloc, item)?;
    Ok(items)
}

fn two<T: Drop>(alloc: Global, first: T, second: T) -> Result<List<T>, NoMemory> {
    let mut items = one(alloc, first)?;
    items.push(alloc, second)?;
    Ok(items)
}

fn empty(alloc: Global) -> Heap
    ensures { result.chunks ≡ [] }
{
    Heap::new(none(alloc))
}

/// One cell at the first variable.
fn cell(alloc: Global, content: Term) -> Result<Heap, NoMemory>
    ensures { IfOk result (λ h. insts h.chunks ≡ []) }
{
    let at = bare(0);
    Ok(Heap::new(one(alloc, Chunk::Cell(CellAt { at, content }))?))
}

/// The normal form of a goal with program variables of numbers 0 and 1, and one existential, of
/// number 9.
fn root(
    alloc: Global,
    pure_pre: List<Lit>,
    pre: Heap,
    pure_post: List<Lit>,
    post: Heap,
) -> Result<Node, Refused<TooLarge>>
    requires pre { insts pre.chunks ≡ [] }
    requires post { insts post.chunks ≡ [] }
{
    let goal = Goal {
        program: two(alloc, int(0), int(1))?,
        exist: one(alloc, int(9))?,
        pure_pre,
        pre,
        pure_post,
        post,
    };
    let preds = Shared::new(alloc, Preds::new(none(alloc)))?;
    Ok(normal(alloc, Raw::new(preds, goal, none(alloc)))?.node)
}

/// Whether the rows are those of these rules.
fn are_rows_of(table: &List<Row>, rules: &[Rule]) -> bool {
    let table = table.as_slice();
    if table.len() != rules.len() {
        return false;
    }
    for place in 0..rules.len() {
        if table[place].rule != rules[place] {
            return false;
        }
    }
    true
}

/// Whether the flat rows where the heaps are these and nothing else is known are those of the rules.
fn has_flat_rows(
    alloc: Global,
    pre: Heap,
    post: Heap,
    rules: &[Rule],
) -> Result<bool, Refused<TooLarge>>
    requires pre { insts pre.chunks ≡ [] }
    requires post { insts post.chunks ≡ [] }
{
    let node = root(alloc, none(alloc), pre, none(alloc), post)?;
    Ok(are_rows_of(&flat_rows(alloc, &node)?, rules))
}

/// Whether the guesses where the first program variable is at most the second, and this is to be
/// true, are those of the rules.
fn has_guesses(alloc: Global, lit: Lit, rules: &[Rule]) -> Result<bool, Refused<TooLarge>> {
    let known = one(alloc, Lit::Le(bare(0), bare(1)))?;
    let node = root(alloc, known, empty(alloc), one(alloc, lit)?, empty(alloc))?;
    Ok(are_rows_of(&pick_rows(alloc, &node)?, rules))
}

#[test]
fn end_stands_alone(rt: HostRuntime) -> Result<(), Fail> {
    let alloc = rt.alloc();
    assert!(rt; has_flat_rows(alloc, empty(alloc), empty(alloc), &[Rule::ByEmp])?);
    Ok(())
}

#[test]
fn read_stands_alone(rt: HostRuntime) -> Result<(), Fail> {
    let alloc = rt.alloc();
    let pre = cell(alloc, bare(2))?;
    let post = cell(alloc, bare(2))?;
    assert!(rt; has_flat_rows(alloc, pre, post, &[Rule::ByRead(0)])?);
    Ok(())
}

#[test]
fn cell_that_differs_is_written(rt: HostRuntime) -> Result<(), Fail> {
    let alloc = rt.alloc();
    let pre = cell(alloc, plain(5))?;
    let post = cell(alloc, plain(6))?;
    assert!(rt; has_flat_rows(alloc, pre, post, &[Rule::ByWrite(0)])?);
    Ok(())
}

#[test]
fn cell_that_is_there_is_framed(rt: HostRuntime) -> Result<(), Fail> {
    let alloc = rt.alloc();
    let pre = cell(alloc, plain(5))?;
    let post = cell(alloc, plain(5))?;
    assert!(rt; has_flat_rows(alloc, pre, post, &[Rule::ByFrame(0)])?);
    Ok(())
}

#[test]
fn guesses_come_in_order_of_number(rt: HostRuntime) -> Result<(), Fail> {
    let alloc = rt.alloc();
    let guesses = [Rule::ByPick(int(0)), Rule::ByPick(int(1))];
    assert!(rt; has_guesses(alloc, Lit::Le(bare(0), bare(9)), &guesses)?);
    Ok(())
}

#[test]
fn guess_that_is_dead_is_left_out(rt: HostRuntime) -> Result<(), Fail> {
    let alloc = rt.alloc();
    let guesses = [Rule::ByPick(int(0))];
    assert!(rt; has_guesses(alloc, Lit::Le(bare(9), bare(0)), &guesses)?);
    Ok(())
}
