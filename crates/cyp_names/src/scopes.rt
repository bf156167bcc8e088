ghost use Rattle.std.specs.Prelude.{IfOk, ◌≡◌};
ghost use Rattle.cyp_names.specs.Specifications.{clause_scope, goal_scope, universal_scope};

use crate::body_uses::{add_body, add_params};
use crate::scope::Scope;
use crate::uses::{Order, add_literal};
use cyp_term::NoMemory;
use cyp_text::{ClauseTree, ParamTree, PredTree, TextTree};
use std::alloc::Global;

/// The names of a clause: the parameters, then its own by first occurrence in the guard, the
/// literals and the chunks as they are kept.
pub fn clause_scope<'a>(
    alloc: Global,
    preds: &[PredTree],
    params: &'a [ParamTree],
    clause: &'a ClauseTree,
) -> Result<Scope<'a>, NoMemory>
    ensures { IfOk result (λ s. s ≡ clause_scope preds.now params.now clause.now) }
{
    let mut uses = Vec::new(alloc);
    add_params(&mut uses, params)?;
    add_literal(&mut uses, Order::AsKept, &clause.guard)?;
    add_body(&mut uses, Order::AsKept, preds, &clause.body)?;
    Scope::new(alloc).with_all(uses)
}

/// The names of the procedure's parameters and of the precondition as it is kept.
pub fn universal_scope<'a>(alloc: Global, tree: &'a TextTree) -> Result<Scope<'a>, NoMemory>
    ensures { IfOk result (λ s. s ≡ universal_scope tree.now) }
{
    let mut uses = Vec::new(alloc);
    add_params(&mut uses, tree.params.as_slice())?;
    add_body(&mut uses, Order::AsKept, tree.preds.as_slice(), &tree.pre)?;
    Scope::new(alloc).with_all(uses)
}

/// The names of the universal scope, and then those that the postcondition alone has.
pub fn goal_scope<'a>(alloc: Global, tree: &'a TextTree) -> Result<Scope<'a>, NoMemory>
    ensures { IfOk result (λ s. s ≡ goal_scope tree.now) }
{
    let scope = universal_scope(alloc, tree)?;
    let mut uses = Vec::new(alloc);
    add_body(&mut uses, Order::AsKept, tree.preds.as_slice(), &tree.post)?;
    scope.with_all(uses)
}
