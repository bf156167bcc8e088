//! The variables that occur in a goal and its parts, in the order in which they are written.

ghost use Rattle.std.specs.Prelude.{IfOk, List, OnOk, ◌++◌, ◌≡◌};
ghost use Rattle.std.specs.List.{flat_map};
ghost use Rattle.cyp_heap.specs.Chunks.{arg_vars, chunk_vars, chunks_vars};
ghost use Rattle.cyp_heap.specs.Goals.{goal_vars, image_vars};
ghost use Rattle.cyp_term.specs.Terms.{lit_vars, lits_vars, set_vars, term_vars};
ghost use Rattle.cyp_term.specs.declared.term.Var.{Var as TheVar};

use cyp_heap::{Arg, Chunk, Goal, Link};
use cyp_term::{IntBind, Lit, NoMemory, SetBind, SetTerm, Term, Var};
use std::alloc::Global;

/// What variables occur in.
pub(crate) trait Occurs {
    ghost occurring: { Self → List TheVar };

    /// Adds the variables at the end, with repeats.
    fn add_to(&self, vars: &mut Vec<Var>) -> Result<(), NoMemory>
        ensures { OnOk result (vars.new.items ≡ vars.old.items ++ occurring self.now) };
}

/// Adds the variables of each item in turn.
pub(crate) fn add_all<T: Occurs>(items: &[T], vars: &mut Vec<Var>) -> Result<(), NoMemory>
    ensures { OnOk result (vars.new.items ≡ vars.old.items ++ flat_map T.occurring items.now) }
{
    for item in items {
        item.add_to(vars)?;
    }
    Ok(())
}

/// The variables of each item in turn.
pub(crate) fn vars_of<T: Occurs>(alloc: Global, items: &[T]) -> Result<Vec<Var>, NoMemory>
    ensures { IfOk result (λ vs. vs.items ≡ flat_map T.occurring items.now) }
{
    let mut vars = Vec::new(alloc);
    add_all(items, &mut vars)?;
    Ok(vars)
}

fn add_both<A: Occurs, B: Occurs>(a: &A, b: &B, vars: &mut Vec<Var>) -> Result<(), NoMemory>
    ensures { OnOk result (vars.new.items ≡ vars.old.items ++ (A.occurring a.now ++ B.occurring b.now)) }
{
    a.add_to(vars)?;
    b.add_to(vars)
}

impl Occurs for Term {
    ghost occurring = { term_vars };

    fn add_to(&self, vars: &mut Vec<Var>) -> Result<(), NoMemory> {
        if let Some(var) = self.base() {
            vars.push(var)?;
        }
        Ok(())
    }
}

impl Occurs for SetTerm {
    ghost occurring = { set_vars };

    fn add_to(&self, vars: &mut Vec<Var>) -> Result<(), NoMemory> {
        vars.extend_from_slice(self.vars())?;
        add_all(self.elems(), vars)
    }
}

impl Occurs for Lit {
    ghost occurring = { lit_vars };

    fn add_to(&self, vars: &mut Vec<Var>) -> Result<(), NoMemory> {
        match self {
            Lit::Eq(a, b) | Lit::Ne(a, b) | Lit::Le(a, b) | Lit::Lt(a, b) => add_both(a, b, vars),
            Lit::Member(a, b) | Lit::NotMember(a, b) => add_both(a, b, vars),
            Lit::Same(a, b) | Lit::NotSame(a, b) | Lit::Sub(a, b) | Lit::NotSub(a, b) => {
                add_both(a, b, vars)
            }
        }
    }
}

impl Occurs for Arg {
    ghost occurring = { arg_vars };

    fn add_to(&self, vars: &mut Vec<Var>) -> Result<(), NoMemory> {
        match self {
            Arg::Int(term) => term.add_to(vars),
            Arg::Set(set) => set.add_to(vars),
        }
    }
}

impl Occurs for Chunk {
    ghost occurring = { chunk_vars };

    fn add_to(&self, vars: &mut Vec<Var>) -> Result<(), NoMemory> {
        match self {
            Chunk::Inst(inst) => {
                add_all(inst.args.as_slice(), vars)?;
                if let Some(card) = inst.card {
                    vars.push(card)?;
                }
                Ok(())
            }
            Chunk::Block(block) => block.at().add_to(vars),
            Chunk::Cell(cell) => add_both(&cell.at, &cell.content, vars),
        }
    }
}

impl Occurs for IntBind {
    ghost occurring = { λ b. term_vars b.to };

    fn add_to(&self, vars: &mut Vec<Var>) -> Result<(), NoMemory> {
        self.to.add_to(vars)
    }
}

impl Occurs for SetBind {
    ghost occurring = { λ b. set_vars b.to };

    fn add_to(&self, vars: &mut Vec<Var>) -> Result<(), NoMemory> {
        self.to.add_to(vars)
    }
}

impl Occurs for Link {
    ghost occurring = { λ k. flat_map term_vars k.tuple ++ image_vars k.map };

    fn add_to(&self, vars: &mut Vec<Var>) -> Result<(), NoMemory> {
        add_all(self.tuple.as_slice(), vars)?;
        add_all(self.map.ints.as_slice(), vars)?;
        add_all(self.map.sets.as_slice(), vars)
    }
}

fn add_chunks_and_lits(goal: &Goal, vars: &mut Vec<Var>) -> Result<(), NoMemory>
    ensures { OnOk result (vars.new.items ≡ vars.old.items ++ chunks_vars goal.now.pre.chunks ++ chunks_vars goal.now.post.chunks ++ lits_vars goal.now.pure_pre ++ lits_vars goal.now.pure_post) }
{
    add_all(goal.pre.chunks(), vars)?;
    add_all(goal.post.chunks(), vars)?;
    add_all(goal.pure_pre.as_slice(), vars)?;
    add_all(goal.pure_post.as_slice(), vars)
}

/// The variables of the goal's chunks, then those of its literals.
pub(crate) fn chunk_and_lit_vars(alloc: Global, goal: &Goal) -> Result<Vec<Var>, NoMemory>
    ensures { IfOk result (λ vs. vs.items ≡ chunks_vars goal.now.pre.chunks ++ chunks_vars goal.now.post.chunks ++ lits_vars goal.now.pure_pre ++ lits_vars goal.now.pure_post) }
{
    let mut vars = Vec::new(alloc);
    add_chunks_and_lits(goal, &mut vars)?;
    Ok(vars)
}

/// The goal's program variables, then the variables of its chunks, then those of its literals.
pub fn goal_vars(alloc: Global, goal: &Goal) -> Result<Vec<Var>, NoMemory>
    ensures { IfOk result (λ vs. vs.items ≡ goal_vars goal.now) }
{
    let mut vars = Vec::new(alloc);
    vars.extend_from_slice(goal.program.as_slice())?;
    add_chunks_and_lits(goal, &mut vars)?;
    Ok(vars)
}
