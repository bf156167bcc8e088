//! Whether a companion can be called.

ghost use Rattle.std.specs.Prelude.{IfOk, is_some, length, map, ◌&&◌, ◌≡◌};
ghost use Rattle.std.specs.List.{list_all, list_any};
ghost use Rattle.cyp_goal.specs.Facts.{facts};
ghost use Rattle.cyp_step.specs.Calling.{are_shown, is_callable, is_lower};
ghost use Rattle.cyp_step.specs.Mends.{writes_for};
ghost use Rattle.cyp_step.specs.Shown.{is_program_expr, shown};
ghost use Rattle.cyp_term.specs.Terms.{apply_lit, apply_term, var_term};

use crate::applying::{apply_lits, apply_terms};
use crate::existentials::{is_among, is_program_expr};
use crate::mends::writes;
use crate::showing::follows;
use cyp_goal::facts;
use cyp_heap::{Goal, Link, Node};
use cyp_measure::decreases;
use cyp_term::{Fail, List, Lit, NoMemory, Subst, TooWide, Var};
use cyp_unify::Match;
use std::alloc::Global;

/// Whether what stands for the variable is a program expression.
fn is_expr(goal: &Goal, by: &Subst, var: Var) -> bool
    ensures { result ≡ is_program_expr goal.now (apply_term by.now (var_term var)) }
{
    match by.image(var) {
        Some(to) => is_program_expr(goal, to),
        None => is_among(var, goal.program.as_slice()),
    }
}

/// Whether what stands for each of the variables is a program expression.
fn are_exprs(goal: &Goal, by: &Subst, vars: &[Var]) -> bool
    ensures { result ≡ list_all (λ v. is_program_expr goal.now (apply_term by.now (var_term v))) vars.now }
{
    for var in vars {
        if !is_expr(goal, by, *var) {
            return false;
        }
    }
    true
}

/// Whether the literals are shown under the bindings. Where an offset passes 2^32 in size they can't
/// be.
fn are_shown(
    alloc: Global,
    goal: &Goal,
    known: &[Lit],
    lits: &[Lit],
    by: &Subst,
) -> Result<bool, NoMemory>
    requires { known.now ≡ facts goal.now }
    ensures { IfOk result (λ b. b ≡ are_shown goal.now (map (apply_lit by.now) lits.now)) }
{
    match apply_lits(alloc, lits, by) {
        Ok(lits) => follows(alloc, known, lits.as_slice()),
        Err(Fail::Named(TooWide)) => Ok(false),
        Err(Fail::NoMemory) => Err(NoMemory),
    }
}

/// Whether some entry of the list is shown.
fn is_some_shown(
    alloc: Global,
    goal: &Goal,
    known: &[Lit],
    entries: &[List<Lit>],
) -> Result<bool, NoMemory>
    requires { known.now ≡ facts goal.now }
    ensures { IfOk result (λ b. b ≡ list_any (shown goal.now) entries.now) }
{
    for lits in entries {
        if follows(alloc, known, lits.as_slice())? {
            return Ok(true);
        }
    }
    Ok(false)
}

/// Whether the measure of the companion falls. Where an offset in it passes 2^32 in size it doesn't.
fn is_lower(
    alloc: Global,
    node: &Node,
    known: &[Lit],
    link: &Link,
    found: &Match,
) -> Result<bool, NoMemory>
    requires known { known.now ≡ facts node.now.goal }
    requires long { length link.now.own ≡ length link.now.tuple }
    ensures { IfOk result (λ b. b ≡ is_lower node.now link.now found.now) }
{
    let own = match apply_terms(alloc, link.own.as_slice(), &found.by) {
        Ok(own) => own,
        Err(Fail::Named(TooWide)) => return Ok(false),
        Err(Fail::NoMemory) => return Err(NoMemory),
    };
    let entries = decreases(alloc, link.tuple.as_slice(), own.as_slice())?;
    is_some_shown(alloc, node.goal(), known, entries.as_slice())
}

/// Whether what the match needs is shown, and so is the companion's pure precondition.
fn holds(
    alloc: Global,
    goal: &Goal,
    known: &[Lit],
    link: &Link,
    found: &Match,
) -> Result<bool, NoMemory>
    requires { known.now ≡ facts goal.now }
    ensures { IfOk result (λ b. b ≡ (shown goal.now found.now.need && are_shown goal.now (map (apply_lit found.now.by) link.now.goal.pure_pre))) }
{
    if !follows(alloc, known, found.need.as_slice())? {
        return Ok(false);
    }
    let pure_pre = link.goal.get().pure_pre.as_slice();
    are_shown(alloc, goal, known, pure_pre, &found.by)
}

/// Whether the program can do the stores that the call needs.
fn can_store(alloc: Global, goal: &Goal, known: &[Lit], found: &Match) -> Result<bool, NoMemory>
    requires { known.now ≡ facts goal.now }
    ensures { IfOk result (λ b. b ≡ is_some (writes_for goal.now found.now)) }
{
    let stores = writes(alloc, goal, known, found)?;
    Ok(stores.is_some())
}

/// Whether the companion's precondition is there, with program expressions for its program
/// variables, and its measure falls.
pub(crate) fn is_callable(
    alloc: Global,
    node: &Node,
    link: &Link,
    found: &Match,
) -> Result<bool, NoMemory>
    requires { length link.now.own ≡ length link.now.tuple }
    ensures { IfOk result (λ b. b ≡ is_callable node.now link.now found.now) }
{
    let goal = node.goal();
    if !are_exprs(goal, &found.by, link.goal.get().program.as_slice()) {
        return Ok(false);
    }
    let known = facts(alloc, goal)?;
    let known = known.as_slice();
    let held = holds(alloc, goal, known, link, found)?;
    if !held {
        return Ok(false);
    }
    let stored = can_store(alloc, goal, known, found)?;
    if !stored {
        return Ok(false);
    }
    is_lower(alloc, node, known, link, found)
}
