ghost use Rattle.std.specs.Prelude.{◌≡◌, [], ◌∷◌, IfOk, None, pos};
ghost use Rattle.cyp_heap.specs.Keeps.{KeepsNode};
ghost use Rattle.cyp_tests_print.specs.PrintedExamples.{before, cell_with, done, end_proof, error_proof, frame_proof, impossible, one_parameter, plain, shifted, store_proof, stored, unknown};
ghost use Rattle.cyp_term.specs.TermValue.{IsTerm};
ghost use Rattle.cyp_tree.specs.Derivations.{Derived, plain_derivation, plain_derivations};

use cyp_heap::{CellAt, Chunk, Goal, Heap, Node, Preds};
use cyp_print::program_text;
use cyp_space::Solved;
use cyp_step::Rule;
use cyp_term::{List, Lit, NoMemory, Shared, Sort, Term, Text, Var};
use std::alloc::Global;
use std::test::Fail;

const PARAMETER: Var = Var {
    sort: Sort::Int,
    number: 0,
};

const OTHER: Var = Var {
    sort: Sort::Int,
    number: 1,
};

fn none<T>(alloc: Global) -> List<T>
    ensures { result ≡ [] }
{
    List::from_vec(Vec::new(alloc))
}

fn one<T: Drop>(alloc: Global, item: T) -> Result<List<T>, NoMemory>
    ensures { IfOk result (λ items. items ≡ item ∷ []) }
{
    let mut items = Vec::new(alloc);
    items.push(item)?;
    Ok(List::from_vec(items))
}

fn plain(value: i64) -> Term
    requires { IsTerm None value }
    ensures { result ≡ plain value }
{
    Term::new(None, value)
}

fn shifted() -> Term
    ensures { result ≡ shifted (pos 1) }
{
    Term::new(Some(PARAMETER), 1)
}

fn unknown() -> Term
    ensures { result ≡ unknown }
{
    Term::new(Some(OTHER), 0)
}

fn cell_with(content: Term) -> Chunk
    ensures { result ≡ cell_with content }
{
    Chunk::Cell(CellAt {
        at: shifted(),
        content,
    })
}

fn no_cell(alloc: Global) -> Heap
    ensures { result ≡ record { chunks = [] } }
{
    Heap::new(none(alloc))
}

fn one_cell(alloc: Global, content: Term) -> Result<Heap, NoMemory>
    ensures { IfOk result (λ h. h ≡ record { chunks = cell_with content ∷ [] }) }
{
    Ok(Heap::new(one(alloc, cell_with(content))?))
}

/// Two cells at one address.
fn two_cells(alloc: Global) -> Result<Heap, NoMemory>
    ensures { IfOk result (λ h. h ≡ record { chunks = cell_with (plain (pos 1)) ∷ cell_with (plain (pos 2)) ∷ [] }) }
{
    let mut cells = Vec::new(alloc);
    cells.push(cell_with(plain(1)))?;
    cells.push(cell_with(plain(2)))?;
    Ok(Heap::new(List::from_vec(cells)))
}

/// A goal of one parameter.
fn goal(alloc: Global, pre: Heap, post: Heap) -> Result<Goal, NoMemory>
    ensures { IfOk result (λ g. g ≡ (one_parameter pre.chunks post.chunks).goal) }
{
    let program = one(alloc, PARAMETER)?;
    let pure_pre = one(alloc, Lit::Lt(plain(0), shifted()))?;
    Ok(Goal {
        program,
        exist: none(alloc),
        pure_pre,
        pre,
        pure_post: none(alloc),
        post,
    })
}

/// A node without predicates and companions.
fn node(alloc: Global, pre: Heap, post: Heap) -> Result<Node, NoMemory>
    requires { KeepsNode (one_parameter pre.chunks post.chunks) }
    ensures { IfOk result (λ n. n ≡ one_parameter pre.chunks post.chunks) }
{
    let goal = goal(alloc, pre, post)?;
    let preds = Shared::new(alloc, Preds::new(none(alloc)))?;
    Ok(Node::new(preds, goal, none(alloc)))
}

fn done(alloc: Global) -> Result<Node, NoMemory>
    ensures { IfOk result (λ n. n ≡ done) }
{
    node(alloc, no_cell(alloc), no_cell(alloc))
}

fn stored(alloc: Global) -> Result<Node, NoMemory>
    ensures { IfOk result (λ n. n ≡ stored) }
{
    let pre = one_cell(alloc, plain(-5))?;
    let post = one_cell(alloc, plain(-5))?;
    node(alloc, pre, post)
}

fn before(alloc: Global) -> Result<Node, NoMemory>
    ensures { IfOk result (λ n. n ≡ before) }
{
    let pre = one_cell(alloc, unknown())?;
    let post = one_cell(alloc, plain(-5))?;
    node(alloc, pre, post)
}

fn impossible(alloc: Global) -> Result<Node, NoMemory>
    ensures { IfOk result (λ n. n ≡ impossible) }
{
    node(alloc, two_cells(alloc)?, no_cell(alloc))
}

/// A derivation with these parts.
fn derived(
    alloc: Global,
    node: Node,
    rule: Rule,
    parts: List<Solved<Rule, Node>>,
) -> Result<Solved<Rule, Node>, NoMemory>
    ensures { IfOk result (λ s. plain_derivation s ≡ Derived node rule (plain_derivations parts)) }
{
    let node = Shared::new(alloc, node)?;
    Ok(Solved { node, rule, parts })
}

fn ended(alloc: Global) -> Result<Solved<Rule, Node>, NoMemory>
    ensures { IfOk result (λ s. plain_derivation s ≡ end_proof) }
{
    let found = derived(alloc, done(alloc)?, Rule::ByEmp, none(alloc))?;
    Ok(found)
}

fn framed(alloc: Global) -> Result<Solved<Rule, Node>, NoMemory>
    ensures { IfOk result (λ s. plain_derivation s ≡ frame_proof) }
{
    let last = ended(alloc)?;
    let parts = one(alloc, last)?;
    let found = derived(alloc, stored(alloc)?, Rule::ByFrame(0), parts)?;
    Ok(found)
}

fn written(alloc: Global) -> Result<Solved<Rule, Node>, NoMemory>
    ensures { IfOk result (λ s. plain_derivation s ≡ store_proof) }
{
    let framed = framed(alloc)?;
    let parts = one(alloc, framed)?;
    let found = derived(alloc, before(alloc)?, Rule::ByWrite(0), parts)?;
    Ok(found)
}

fn refuted(alloc: Global) -> Result<Solved<Rule, Node>, NoMemory>
    ensures { IfOk result (λ s. plain_derivation s ≡ error_proof) }
{
    let found = derived(alloc, impossible(alloc)?, Rule::ByInconsistent, none(alloc))?;
    Ok(found)
}

fn text_of_store(alloc: Global) -> Result<Text, NoMemory> {
    let found = written(alloc)?;
    program_text(alloc, b"v5", &found)
}

fn text_of_error(alloc: Global) -> Result<Text, NoMemory> {
    let found = refuted(alloc)?;
    program_text(alloc, b"never", &found)
}

#[test]
fn prints_a_store(rt: HostRuntime) -> Result<(), Fail> {
    let text = text_of_store(rt.alloc())?;
    assert_eq!(rt;
        text.as_slice(),
        b"void v5_0(v1) {\n  *(v1 + 1) = -5;\n}\n".as_slice()
    );
    Ok(())
}

#[test]
fn prints_an_error(rt: HostRuntime) -> Result<(), Fail> {
    let text = text_of_error(rt.alloc())?;
    assert_eq!(rt;
        text.as_slice(),
        b"void never(v1) {\n  error;\n}\n".as_slice()
    );
    Ok(())
}
