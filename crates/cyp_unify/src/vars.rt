//! The variables that a match binds.

ghost use Rattle.std.specs.Prelude.{◌≡◌, ◌++◌, IfOk, List, OnOk, not};
ghost use Rattle.std.specs.List.{filter, flat_map};
ghost use Rattle.cyp_heap.specs.Chunks.{arg_vars, chunk_vars};
ghost use Rattle.cyp_heap.specs.Goals.{goal_vars};
ghost use Rattle.cyp_term.specs.Terms.{lit_vars, set_vars, term_vars, var_in};
ghost use Rattle.cyp_term.specs.declared.term.Var.{Var as TheVar};

use crate::walk::is_among;
use cyp_heap::{Arg, Chunk, Goal, Link};
use cyp_term::{Lit, NoMemory, SetTerm, Term, Var};
use std::alloc::Global;

/// What variables occur in.
trait Occurs {
    ghost occurring: { Self → List TheVar };

    /// Adds the variables at the end, in the order in which they are written and with repeats.
    fn add_to(&self, vars: &mut Vec<Var>) -> Result<(), NoMemory>
        ensures { OnOk result (vars.new.items ≡ vars.old.items ++ occurring self.now) };
}

/// Adds the variables of each item in turn.
fn add_all<T: Occurs>(items: &[T], vars: &mut Vec<Var>) -> Result<(), NoMemory>
    ensures { OnOk result (vars.new.items ≡ vars.old.items ++ flat_map T.occurring items.now) }
{
    for item in items {
        item.add_to(vars)?;
    }
    Ok(())
}

fn add_both<A: Occurs, B: Occurs>(a: &A, b: &B, vars: &mut Vec<Var>) -> Result<(), NoMemory>
    ensures { OnOk result (vars.new.items ≡ vars.old.items ++ (A.occurring a.now ++ B.occurring b.now)) }
{
    a.add_to(vars)?;
    b.add_to(vars)
}

impl Occurs for Term {
    ghost occurring = { term_vars };

    fn add_to(&self, vars: &mut Vec<Var>) -> Result<(), NoMemory> {
        if let Some(var) = self.base() {
            vars.push(var)?;
        }
        Ok(())
    }
}

impl Occurs for SetTerm {
    ghost occurring = { set_vars };

    fn add_to(&self, vars: &mut Vec<Var>) -> Result<(), NoMemory> {
        vars.extend_from_slice(self.vars())?;
        add_all(self.elems(), vars)
    }
}

impl Occurs for Lit {
    ghost occurring = { lit_vars };

    fn add_to(&self, vars: &mut Vec<Var>) -> Result<(), NoMemory> {
        match self {
            Lit::Eq(a, b) | Lit::Ne(a, b) | Lit::Le(a, b) | Lit::Lt(a, b) => add_both(a, b, vars),
            Lit::Member(a, b) | Lit::NotMember(a, b) => add_both(a, b, vars),
            Lit::Same(a, b) | Lit::NotSame(a, b) | Lit::Sub(a, b) | Lit::NotSub(a, b) => {
                add_both(a, b, vars)
            }
        }
    }
}

impl Occurs for Arg {
    ghost occurring = { arg_vars };

    fn add_to(&self, vars: &mut Vec<Var>) -> Result<(), NoMemory> {
        match self {
            Arg::Int(term) => term.add_to(vars),
            Arg::Set(set) => set.add_to(vars),
        }
    }
}

impl Occurs for Chunk {
    ghost occurring = { chunk_vars };

    fn add_to(&self, vars: &mut Vec<Var>) -> Result<(), NoMemory> {
        match self {
            Chunk::Inst(inst) => {
                add_all(inst.args.as_slice(), vars)?;
                if let Some(card) = inst.card {
                    vars.push(card)?;
                }
                Ok(())
            }
            Chunk::Block(block) => block.at().add_to(vars),
            Chunk::Cell(cell) => add_both(&cell.at, &cell.content, vars),
        }
    }
}

/// The variables of a goal, with repeats.
fn goal_vars(alloc: Global, goal: &Goal) -> Result<Vec<Var>, NoMemory>
    ensures { IfOk result (λ vs. vs.items ≡ goal_vars goal.now) }
{
    let mut vars = Vec::new(alloc);
    vars.extend_from_slice(goal.program.as_slice())?;
    add_all(goal.pre.chunks(), &mut vars)?;
    add_all(goal.post.chunks(), &mut vars)?;
    add_all(goal.pure_pre.as_slice(), &mut vars)?;
    add_all(goal.pure_post.as_slice(), &mut vars)?;
    Ok(vars)
}

fn outside(alloc: Global, vars: &[Var], exist: &[Var]) -> Result<Vec<Var>, NoMemory>
    ensures { IfOk result (λ vs. vs.items ≡ filter (λ v. not (var_in v exist.now)) vars.now) }
{
    let mut kept = Vec::new(alloc);
    for var in vars {
        if !is_among(*var, exist) {
            kept.push(*var)?;
        }
    }
    Ok(kept)
}

/// The variables of the companion's goal outside its existentials, then those of its measure, with
/// repeats.
pub(crate) fn vars_to_bind(alloc: Global, link: &Link) -> Result<Vec<Var>, NoMemory>
    ensures { IfOk result (λ vs. vs.items ≡ filter (λ v. not (var_in v link.now.goal.exist)) (goal_vars link.now.goal) ++ flat_map term_vars link.now.own) }
{
    let goal = link.goal.get();
    let vars = goal_vars(alloc, goal)?;
    let mut kept = outside(alloc, vars.as_slice(), goal.exist.as_slice())?;
    add_all(link.own.as_slice(), &mut kept)?;
    Ok(kept)
}
