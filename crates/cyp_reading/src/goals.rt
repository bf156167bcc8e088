ghost use Rattle.std.specs.List.{All};
ghost use Rattle.std.specs.Prelude.{IfOk, drop, length, map, ◌≡◌, ◌≤◌};
ghost use Rattle.cyp_reading.specs.Cards.{next_card, with_card};
ghost use Rattle.cyp_reading.specs.InScope.{goal_in};
ghost use Rattle.cyp_reading.specs.Mended.{mended_body, mended_text};
ghost use Rattle.cyp_reading.specs.Readable.{ChunkReadable};
ghost use Rattle.cyp_reading.specs.ReadableTexts.{GoalIn, GoalReadable};
ghost use Rattle.cyp_names.specs.ReadTerms.{read_chunks, use_var};
ghost use Rattle.cyp_names.specs.Specifications.{read_goal, with_cards};
ghost use Rattle.cyp_names.specs.Uses.{param_uses};

use crate::chunks::read_chunks;
use crate::clauses::read_heap;
use crate::literals::read_lits;
use cyp_heap::{Chunk, Goal, Heap, InstOf};
use cyp_names::{NamedUse, Scope, goal_scope, universal_scope};
use cyp_term::{List, NoMemory, Sort, Var};
use cyp_text::{BodyTree, ParamTree, PredTree, TextTree};
use std::alloc::Global;

/// The variables of the parameters.
fn param_vars(alloc: Global, scope: &Scope<'_>, params: &[ParamTree]) -> Result<List<Var>, NoMemory>
    requires { length scope.now ≤ 255 }
    ensures { IfOk result (λ vs. vs ≡ map (use_var scope.now) (param_uses params.now)) }
{
    let mut vars = Vec::new(alloc);
    for param in params {
        vars.push(scope.var_named(&param.name.text))?;
    }
    Ok(List::from_vec(vars))
}

/// The variables of these names.
fn vars_of(alloc: Global, scope: &Scope<'_>, names: &[NamedUse<'_>]) -> Result<List<Var>, NoMemory>
    requires { length scope.now ≤ 255 }
    ensures { IfOk result (λ vs. vs ≡ map (use_var scope.now) names.now) }
{
    let mut vars = Vec::new(alloc);
    for name in names {
        vars.push(scope.var_named(&name.name().text))?;
    }
    Ok(List::from_vec(vars))
}

/// The chunk; an instance gets the cardinality of this number.
fn with_card(chunk: Chunk, number: u8) -> Chunk
    ensures { result ≡ with_card number chunk }
{
    match chunk {
        Chunk::Inst(inst) => {
            let InstOf {
                pred,
                args,
                tag,
                ..
            } = inst;
            let card = Some(Var {
                sort: Sort::Card,
                number,
            });
            Chunk::Inst(InstOf {
                pred,
                args,
                card,
                tag,
            })
        }
        Chunk::Block(block) => Chunk::Block(block),
        Chunk::Cell(cell) => Chunk::Cell(cell),
    }
}

/// The number of the next cardinality, where this many were given before the chunk.
fn next_card(chunk: &Chunk, number: u8) -> u8
    requires { number ≤ 254 }
    ensures { result ≡ next_card number chunk.now }
{
    match chunk {
        Chunk::Inst(_) => number + 1,
        Chunk::Block(_) => number,
        Chunk::Cell(_) => number,
    }
}

/// The chunks, whose instances get cardinalities in their order.
fn with_cards(alloc: Global, chunks: List<Chunk>) -> Result<List<Chunk>, NoMemory>
    requires { length chunks ≤ 255 }
    ensures { IfOk result (λ cs. cs ≡ with_cards 0 chunks) }
{
    let mut given = Vec::new(alloc);
    let mut number = 0;
    for chunk in chunks.into_vec() {
        let next = next_card(&chunk, number);
        given.push(with_card(chunk, number))?;
        number = next;
    }
    Ok(List::from_vec(given))
}

/// The heap of a precondition, whose instances have cardinalities.
fn read_pre(
    alloc: Global,
    preds: &[PredTree],
    scope: &Scope<'_>,
    body: &BodyTree,
) -> Result<Heap, NoMemory>
    requires few { length scope.now ≤ 255 }
    requires few_chunks { length body.now.chunks ≤ 255 }
    requires readable { All (ChunkReadable preds.now scope.now) body.now.chunks }
    ensures { IfOk result (λ h. h ≡ record { chunks = with_cards 0 (read_chunks preds.now scope.now (mended_body body.now)) }) }
{
    let read = read_chunks(alloc, preds, scope, body)?;
    let given = with_cards(alloc, read)?;
    Ok(Heap::new(given))
}

/// The goal of the procedure in its scope, whose existentials begin at this place.
fn goal_in(
    alloc: Global,
    scope: &Scope<'_>,
    first: usize,
    tree: &TextTree,
) -> Result<Goal, NoMemory>
    requires readable { GoalIn scope.now tree.now }
    requires within { first ≤ length scope.now }
    ensures { IfOk result (λ g. g ≡ goal_in scope.now first tree.now) }
{
    let preds = tree.preds.as_slice();
    let program = param_vars(alloc, scope, tree.params.as_slice())?;
    let exist = vars_of(alloc, scope, &scope.uses()[first..])?;
    let pure_pre = read_lits(alloc, scope, &tree.pre.pure)?;
    let pre = read_pre(alloc, preds, scope, &tree.pre)?;
    let pure_post = read_lits(alloc, scope, &tree.post.pure)?;
    let post = read_heap(alloc, preds, scope, &tree.post)?;
    Ok(Goal {
        program,
        exist,
        pure_pre,
        pre,
        pure_post,
        post,
    })
}

/// The goal of the procedure, where the sizes of blocks are brought into 1 to 8. The parameters are
/// the program variables, and what the postcondition alone has are the existentials.
pub fn read_goal(alloc: Global, tree: &TextTree) -> Result<Goal, NoMemory>
    requires { GoalReadable tree.now }
    ensures { IfOk result (λ g. g ≡ read_goal (mended_text tree.now)) }
{
    let first = universal_scope(alloc, tree)?;
    let scope = goal_scope(alloc, tree)?;
    let goal = goal_in(alloc, &scope, first.len(), tree)?;
    Ok(goal)
}
