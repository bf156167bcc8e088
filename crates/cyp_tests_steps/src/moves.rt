ghost use Rattle.std.specs.Prelude.{[], ◌∷◌, IfOk, ◌≡◌};
ghost use Rattle.cyp_heap.specs.Chunks.{insts};
ghost use Rattle.cyp_term.specs.TermValue.{IsTerm};
ghost use Rattle.cyp_term.specs.declared.term.Sort.TheVariants.{Int};

use cyp_goal::{TooLarge, normal};
use cyp_heap::{CellAt, Chunk, Goal, Heap, Node, Preds, Raw};
use cyp_moves::GoalSpace;
use cyp_space::{Alt, Never, Space, Stopped};
use cyp_step::Rule;
use cyp_term::{Fail as Refused, List, Lit, NoMemory, Shared, Sort, Term, Var};
use std::alloc::Global;
use std::test::Fail;

fn int(number: u8) -> Var
    ensures { result ≡ record { sort = Int; number = number } }
{
    Var {
        sort: Sort::Int,
        number,
    }
}

fn bare(number: u8) -> Term {
    Term::new(Some(int(number)), 0)
}

fn plain(value: i64) -> Term
    requires { IsTerm None value }
{
    Term::new(None, value)
}

fn none<T>(alloc: Global) -> List<T>
    ensures { result ≡ [] }
{
    List::from_vec(Vec::new(alloc))
}

fn one<T: Drop>(alloc: Global, item: T) -> Result<List<T>, NoMemory>
    ensures { IfOk result (λ xs. xs ≡ item ∷ []) }
{
    let mut items = none(alloc);
    items.push(alloc, item)?;
    Ok(items)
}

fn empty(alloc: Global) -> Heap
    ensures { result.chunks ≡ [] }
{
    Heap::new(none(alloc))
}

/// One cell at the program variable.
fn cell(alloc: Global, content: Term) -> Result<Heap, NoMemory>
    ensures { IfOk result (λ h. insts h.chunks ≡ []) }
{
    let at = bare(0);
    Ok(Heap::new(one(alloc, Chunk::Cell(CellAt { at, content }))?))
}

/// The normal form of a goal with one program variable, of number 0, and one existential, of number
/// 9.
fn root(
    alloc: Global,
    pre: Heap,
    pure_post: List<Lit>,
    post: Heap,
) -> Result<Node, Refused<TooLarge>>
    requires pre { insts pre.chunks ≡ [] }
    requires post { insts post.chunks ≡ [] }
{
    let goal = Goal {
        program: one(alloc, int(0))?,
        exist: one(alloc, int(9))?,
        pure_pre: none(alloc),
        pre,
        pure_post,
        post,
    };
    let preds = Shared::new(alloc, Preds::new(none(alloc)))?;
    Ok(normal(alloc, Raw::new(preds, goal, none(alloc)))?.node)
}

/// Whether these are the rules in order, each at this cost.
fn are_alts(alts: &[Alt<Rule, Node>], rules: &[Rule], cost: u32) -> bool {
    if alts.len() != rules.len() {
        return false;
    }
    for place in 0..rules.len() {
        if *alts[place].rule() != rules[place] || alts[place].cost() != cost {
            return false;
        }
    }
    true
}

/// Whether the moves of the node are those by these rules, each at this cost.
fn are_moves(
    alloc: Global,
    node: Node,
    rules: &[Rule],
    cost: u32,
) -> Result<bool, Refused<Stopped>> {
    let node = Shared::new(alloc, node)?;
    let moves = GoalSpace { unfold: 2 }.moves(alloc, &node, &mut Never)?;
    Ok(are_alts(moves.alts(), rules, cost))
}

#[test]
fn write_costs_one(rt: HostRuntime) -> Result<(), Fail> {
    let alloc = rt.alloc();
    let pre = cell(alloc, plain(5))?;
    let post = cell(alloc, plain(6))?;
    let node = root(alloc, pre, none(alloc), post)?;
    assert!(rt; are_moves(alloc, node, &[Rule::ByWrite(0)], 1)?);
    Ok(())
}

#[test]
fn guess_costs_six(rt: HostRuntime) -> Result<(), Fail> {
    let alloc = rt.alloc();
    let lits = one(alloc, Lit::Le(bare(0), bare(9)))?;
    let node = root(alloc, empty(alloc), lits, empty(alloc))?;
    assert!(rt; are_moves(alloc, node, &[Rule::ByPick(int(0))], 6)?);
    Ok(())
}

#[test]
fn dead_node_has_no_moves(rt: HostRuntime) -> Result<(), Fail> {
    let alloc = rt.alloc();
    let lits = one(alloc, Lit::Lt(bare(0), plain(5)))?;
    let node = root(alloc, cell(alloc, plain(1))?, lits, empty(alloc))?;
    assert!(rt; are_moves(alloc, node, &[], 0)?);
    Ok(())
}

#[test]
fn postcondition_weighs_twice(rt: HostRuntime) -> Result<(), Fail> {
    let alloc = rt.alloc();
    let pre = cell(alloc, plain(5))?;
    let post = cell(alloc, plain(6))?;
    let node = root(alloc, pre, none(alloc), post)?;
    assert_eq!(rt; GoalSpace { unfold: 2 }.weight(&node), 3);
    Ok(())
}

#[test]
fn spaces_that_unfold_as_often_are_the_same(rt: HostRuntime) -> Result<(), Fail> {
    let once = GoalSpace { unfold: 1 };
    let twice = GoalSpace { unfold: 2 };
    assert!(rt; twice.same(&twice));
    assert!(rt; !twice.same(&once));
    Ok(())
}
