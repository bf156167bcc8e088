ghost use Rattle.std.specs.Prelude.{[], ◌∷◌, IfOk, pos, ◌≡◌};
ghost use Rattle.cyp_heap.specs.Chunks.{insts};
ghost use Rattle.cyp_step.specs.Examples.{with_instance};
ghost use Rattle.cyp_step.specs.RuleKinds.{IsFlatRule};
ghost use Rattle.cyp_term.specs.TermValue.{IsTerm};
ghost use Rattle.cyp_term.specs.declared.term.Sort.TheVariants.{Int};

use cyp_goal::{Renamed, TooLarge, normal};
use cyp_heap::{BlockAt, CellAt, Chunk, Goal, Heap, InstOf, Node, Preds, Raw};
use cyp_step::{Rule, dead, is_step, premises_of, shown};
use cyp_term::{Fail as Refused, List, Lit, NoMemory, Shared, Sort, Term, Var};
use std::alloc::Global;
use std::test::Fail;

fn int(number: u8) -> Var
    ensures { result ≡ record { sort = Int; number = number } }
{
    Var {
        sort: Sort::Int,
        number,
    }
}

fn bare(number: u8) -> Term
    ensures { result ≡ record { base = Some (record { sort = Int; number = number }); offset = pos 0 } }
{
    Term::new(Some(int(number)), 0)
}

fn plain(value: i64) -> Term
    requires { IsTerm None value }
    ensures { result ≡ record { base = None; offset = value } }
{
    Term::new(None, value)
}

/// That the variable is below the number.
fn below(number: u8, value: i64) -> Lit
    requires { IsTerm None value }
    ensures { result ≡ Lit.Lt (record { base = Some (record { sort = Int; number = number }); offset = pos 0 }) (record { base = None; offset = value }) }
{
    Lit::Lt(bare(number), plain(value))
}

fn none<T>(alloc: Global) -> List<T>
    ensures { result ≡ [] }
{
    List::from_vec(Vec::new(alloc))
}

fn one<T: Drop>(alloc: Global, item: T) -> Result<List<T>, NoMemory>
    ensures { IfOk result (λ xs. xs ≡ item ∷ []) }
{
    let mut items = none(alloc);
    items.push(alloc, item)?;
    Ok(items)
}

fn two<T: Drop>(alloc: Global, first: T, second: T) -> Result<List<T>, NoMemory>
    ensures { IfOk result (λ xs. xs ≡ first ∷ second ∷ []) }
{
    let mut items = none(alloc);
    items.push(alloc, first)?;
    items.push(alloc, second)?;
    Ok(items)
}

fn empty(alloc: Global) -> Heap
    ensures { result.chunks ≡ [] }
{
    Heap::new(none(alloc))
}

/// One cell at the variable.
fn cell(alloc: Global, at: u8, content: Term) -> Result<Heap, NoMemory>
    ensures { IfOk result (λ h. insts h.chunks ≡ []) }
{
    let at = bare(at);
    Ok(Heap::new(one(alloc, Chunk::Cell(CellAt { at, content }))?))
}

/// Two cells at the variables.
fn cells(alloc: Global, first: u8, second: u8) -> Result<Heap, NoMemory>
    ensures { IfOk result (λ h. insts h.chunks ≡ []) }
{
    let content = plain(1);
    let first = Chunk::Cell(CellAt {
        at: bare(first),
        content,
    });
    let second = Chunk::Cell(CellAt {
        at: bare(second),
        content,
    });
    Ok(Heap::new(two(alloc, first, second)?))
}

/// The normal form of a goal with one program variable, of number 0, and one existential, of number
/// 9.
fn root(
    alloc: Global,
    pre: Heap,
    pure_post: List<Lit>,
    post: Heap,
) -> Result<Node, Refused<TooLarge>>
    requires pre { insts pre.chunks ≡ [] }
    requires post { insts post.chunks ≡ [] }
{
    let goal = Goal {
        program: one(alloc, int(0))?,
        exist: one(alloc, int(9))?,
        pure_pre: none(alloc),
        pre,
        pure_post,
        post,
    };
    let preds = Shared::new(alloc, Preds::new(none(alloc)))?;
    Ok(normal(alloc, Raw::new(preds, goal, none(alloc)))?.node)
}

fn is_dead(alloc: Global, node: &Node) -> Result<bool, NoMemory> {
    dead(alloc, node.goal())
}

/// Whether the normal form of this goal is dead.
fn is_root_dead(
    alloc: Global,
    pre: Heap,
    lits: List<Lit>,
    post: Heap,
) -> Result<bool, Refused<TooLarge>>
    requires pre { insts pre.chunks ≡ [] }
    requires post { insts post.chunks ≡ [] }
{
    let node = root(alloc, pre, lits, post)?;
    Ok(is_dead(alloc, &node)?)
}

/// Whether the goal with this precondition is dead where the postcondition has the literals alone.
fn is_dead_with(alloc: Global, pre: Heap, lits: List<Lit>) -> Result<bool, Refused<TooLarge>>
    requires { insts pre.chunks ≡ [] }
{
    is_root_dead(alloc, pre, lits, empty(alloc))
}

/// Whether the literals are shown at the normal form of the goal with these heaps.
fn shows(alloc: Global, pre: Heap, post: Heap, lits: &[Lit]) -> Result<bool, Refused<TooLarge>>
    requires pre { insts pre.chunks ≡ [] }
    requires post { insts post.chunks ≡ [] }
{
    let node = root(alloc, pre, none(alloc), post)?;
    Ok(shown(alloc, node.goal(), lits)?)
}

#[test]
fn shows_nothing_of_a_content(rt: HostRuntime) -> Result<(), Fail> {
    let alloc = rt.alloc();
    let pre = cell(alloc, 0, bare(1))?;
    let post = cell(alloc, 0, plain(5))?;
    let lits = [Lit::Eq(plain(5), bare(1))];
    assert!(rt; !shows(alloc, pre, post, &lits)?);
    Ok(())
}

#[test]
fn shows_that_cells_lie_apart(rt: HostRuntime) -> Result<(), Fail> {
    let alloc = rt.alloc();
    let pre = cells(alloc, 0, 1)?;
    let lits = [Lit::Ne(bare(1), bare(0))];
    assert!(rt; shows(alloc, pre, empty(alloc), &lits)?);
    Ok(())
}

/// So often that the first variable is positive.
fn often_positive(alloc: Global, count: u8) -> Result<List<Lit>, NoMemory> {
    let mut lits = none(alloc);
    for _ in 0..count {
        lits.push(alloc, Lit::Lt(plain(0), bare(0)))?;
    }
    Ok(lits)
}

/// Whether so many literals are shown that each follow.
fn shows_often(alloc: Global, count: u8) -> Result<bool, Refused<TooLarge>> {
    let lits = often_positive(alloc, count)?;
    let pre = cell(alloc, 0, plain(1))?;
    shows(alloc, pre, empty(alloc), lits.as_slice())
}

#[test]
fn shows_no_more_literals_than_fit(rt: HostRuntime) -> Result<(), Fail> {
    let alloc = rt.alloc();
    assert!(rt; shows_often(alloc, 64)?);
    assert!(rt; !shows_often(alloc, 65)?);
    Ok(())
}

#[test]
fn goal_without_literals_is_not_dead(rt: HostRuntime) -> Result<(), Fail> {
    let alloc = rt.alloc();
    let post = cell(alloc, 0, plain(1))?;
    assert!(rt; !is_root_dead(alloc, empty(alloc), none(alloc), post)?);
    Ok(())
}

#[test]
fn goal_with_a_literal_that_is_shown_is_not_dead(rt: HostRuntime) -> Result<(), Fail> {
    let alloc = rt.alloc();
    let lits = often_positive(alloc, 1)?;
    assert!(rt; !is_dead_with(alloc, cell(alloc, 0, plain(1))?, lits)?);
    Ok(())
}

#[test]
fn goal_with_a_literal_that_is_not_shown_is_dead(rt: HostRuntime) -> Result<(), Fail> {
    let alloc = rt.alloc();
    let lits = one(alloc, below(0, 5))?;
    assert!(rt; is_dead_with(alloc, cell(alloc, 0, plain(1))?, lits)?);
    Ok(())
}

#[test]
fn goal_with_an_existential_in_its_literal_is_not_dead(rt: HostRuntime) -> Result<(), Fail> {
    let alloc = rt.alloc();
    let lits = one(alloc, Lit::Lt(bare(0), bare(9)))?;
    assert!(rt; !is_dead_with(alloc, cell(alloc, 0, plain(1))?, lits)?);
    Ok(())
}

#[test]
fn goal_whose_literals_contradict_each_other_is_dead(rt: HostRuntime) -> Result<(), Fail> {
    let alloc = rt.alloc();
    let lits = two(alloc, Lit::Lt(bare(0), bare(9)), Lit::Lt(bare(9), bare(0)))?;
    assert!(rt; is_dead_with(alloc, cell(alloc, 0, plain(1))?, lits)?);
    Ok(())
}

#[test]
fn goal_whose_facts_contradict_each_other_is_not_dead(rt: HostRuntime) -> Result<(), Fail> {
    let alloc = rt.alloc();
    let lits = one(alloc, below(0, 5))?;
    assert!(rt; !is_dead_with(alloc, cells(alloc, 0, 0)?, lits)?);
    Ok(())
}

/// An instance in the precondition, and a literal that isn't shown.
fn goal_with_instance(alloc: Global) -> Result<Goal, NoMemory>
    ensures { IfOk result (λ g. g ≡ with_instance) }
{
    let inst = Chunk::Inst(InstOf {
        pred: 0,
        args: none(alloc),
        card: Some(Var {
            sort: Sort::Card,
            number: 0,
        }),
        tag: 0,
    });
    Ok(Goal {
        program: one(alloc, int(0))?,
        exist: none(alloc),
        pure_pre: none(alloc),
        pre: Heap::new(one(alloc, inst)?),
        pure_post: one(alloc, below(0, 5))?,
        post: empty(alloc),
    })
}

fn is_dead_with_instance(alloc: Global) -> Result<bool, NoMemory> {
    let goal = goal_with_instance(alloc)?;
    dead(alloc, &goal)
}

#[test]
fn goal_with_an_instance_is_not_dead(rt: HostRuntime) -> Result<(), Fail> {
    let alloc = rt.alloc();
    assert!(rt; !is_dead_with_instance(alloc)?);
    Ok(())
}

/// Whether the rule is allowed at the node.
fn is_allowed(alloc: Global, node: &Node, rule: &Rule) -> Result<bool, NoMemory>
    requires { IsFlatRule rule.now }
{
    Ok(premises_of(alloc, node, rule)?.is_some())
}

/// Whether the rule leaves the one node.
fn leads_to(alloc: Global, node: &Node, rule: &Rule, premise: Node) -> Result<bool, NoMemory>
    requires { IsFlatRule rule.now }
{
    let premises = [Shared::new(alloc, premise)?];
    is_step(alloc, node, rule, &premises)
}

/// Whether the rule leaves nothing to do.
fn closes(alloc: Global, node: &Node, rule: &Rule) -> Result<bool, NoMemory>
    requires { IsFlatRule rule.now }
{
    is_step(alloc, node, rule, &[])
}

fn emp_closes(alloc: Global, form: &Renamed) -> Result<bool, NoMemory> {
    closes(alloc, &form.node, &Rule::ByEmp)
}

/// Whether the rule leaves one node, which Emp closes.
fn emp_ends(alloc: Global, node: &Node, rule: &Rule) -> Result<bool, NoMemory>
    requires { IsFlatRule rule.now }
{
    match premises_of(alloc, node, rule)? {
        Some(forms) => match forms.as_slice() {
            [form] => emp_closes(alloc, form),
            _ => Ok(false),
        },
        None => Ok(false),
    }
}

#[test]
fn emp_is_refused_at_a_cell(rt: HostRuntime) -> Result<(), Fail> {
    let alloc = rt.alloc();
    let pre = cell(alloc, 0, plain(1))?;
    let node = root(alloc, pre, none(alloc), empty(alloc))?;
    assert!(rt; !is_allowed(alloc, &node, &Rule::ByEmp)?);
    assert!(rt; !closes(alloc, &node, &Rule::ByEmp)?);
    Ok(())
}

#[test]
fn emp_closes_an_empty_goal(rt: HostRuntime) -> Result<(), Fail> {
    let alloc = rt.alloc();
    let node = root(alloc, empty(alloc), none(alloc), empty(alloc))?;
    assert!(rt; closes(alloc, &node, &Rule::ByEmp)?);
    Ok(())
}

#[test]
fn inconsistent_closes_two_cells_at_one_address(rt: HostRuntime) -> Result<(), Fail> {
    let alloc = rt.alloc();
    let node = root(alloc, cells(alloc, 0, 0)?, none(alloc), empty(alloc))?;
    assert!(rt; closes(alloc, &node, &Rule::ByInconsistent)?);
    Ok(())
}

#[test]
fn frame_takes_a_cell_from_both_sides(rt: HostRuntime) -> Result<(), Fail> {
    let alloc = rt.alloc();
    let (pre, post) = (cell(alloc, 0, plain(1))?, cell(alloc, 0, plain(1))?);
    let node = root(alloc, pre, none(alloc), post)?;
    assert!(rt; emp_ends(alloc, &node, &Rule::ByFrame(0))?);
    assert!(rt; !is_allowed(alloc, &node, &Rule::ByFrame(1))?);
    Ok(())
}

#[test]
fn write_stores_the_content_of_the_focus(rt: HostRuntime) -> Result<(), Fail> {
    let alloc = rt.alloc();
    let (pre, post) = (cell(alloc, 0, plain(1))?, cell(alloc, 0, plain(5))?);
    let node = root(alloc, pre, none(alloc), post)?;
    let (pre, post) = (cell(alloc, 0, plain(5))?, cell(alloc, 0, plain(5))?);
    let premise = root(alloc, pre, none(alloc), post)?;
    assert!(rt; leads_to(alloc, &node, &Rule::ByWrite(0), premise)?);
    Ok(())
}

#[test]
fn read_needs_a_content_that_stands_elsewhere(rt: HostRuntime) -> Result<(), Fail> {
    let alloc = rt.alloc();
    let pre = cell(alloc, 0, bare(1))?;
    let node = root(alloc, pre, none(alloc), cell(alloc, 0, bare(1))?)?;
    assert!(rt; is_allowed(alloc, &node, &Rule::ByRead(0))?);
    let pre = cell(alloc, 0, bare(1))?;
    let node = root(alloc, pre, none(alloc), empty(alloc))?;
    assert!(rt; !is_allowed(alloc, &node, &Rule::ByRead(0))?);
    Ok(())
}

#[test]
fn pick_takes_the_program_variable(rt: HostRuntime) -> Result<(), Fail> {
    let alloc = rt.alloc();
    let lits = one(alloc, Lit::Lt(bare(0), bare(9)))?;
    let node = root(alloc, cell(alloc, 0, plain(1))?, lits, empty(alloc))?;
    assert!(rt; is_allowed(alloc, &node, &Rule::ByPick(int(0)))?);
    assert!(rt; !is_allowed(alloc, &node, &Rule::ByPick(int(5)))?);
    Ok(())
}

/// One block at the variable, of one cell, and that cell.
fn block(alloc: Global, at: u8) -> Result<Heap, NoMemory>
    ensures { IfOk result (λ h. insts h.chunks ≡ []) }
{
    let block = Chunk::Block(BlockAt::new(bare(at), 1));
    let cell = Chunk::Cell(CellAt {
        at: bare(at),
        content: plain(1),
    });
    Ok(Heap::new(two(alloc, block, cell)?))
}

#[test]
fn free_takes_a_block_with_its_cell(rt: HostRuntime) -> Result<(), Fail> {
    let alloc = rt.alloc();
    let node = root(alloc, block(alloc, 0)?, none(alloc), empty(alloc))?;
    assert!(rt; emp_ends(alloc, &node, &Rule::ByFree(0))?);
    Ok(())
}

#[test]
fn alloc_makes_a_block_that_is_left_to_free(rt: HostRuntime) -> Result<(), Fail> {
    let alloc = rt.alloc();
    let node = root(alloc, empty(alloc), none(alloc), block(alloc, 9)?)?;
    assert!(rt; is_allowed(alloc, &node, &Rule::ByAlloc)?);
    let node = root(alloc, empty(alloc), none(alloc), block(alloc, 0)?)?;
    assert!(rt; !is_allowed(alloc, &node, &Rule::ByAlloc)?);
    Ok(())
}
