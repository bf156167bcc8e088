ghost use Rattle.std.specs.Prelude.{[], IfOk, OnOk, length, ◌++◌, ◌≡◌};
ghost use Rattle.std.specs.List.{filter, flat_map, list_any};
ghost use Rattle.cyp_heap.specs.Chunks.{arg_vars, card_vars, chunk_vars, chunks_vars};
ghost use Rattle.cyp_heap.specs.Goals.{goal_vars};
ghost use Rattle.cyp_heap.specs.Limits.{chunk_elements, goal_elements, is_goal_within};
ghost use Rattle.cyp_spec.specs.GoalLimits.{is_goal_with};
ghost use Rattle.cyp_term.specs.Terms.{is_set_var, lit_vars, lits_vars, set_vars, sort_eq, term_eq, term_vars, var_eq, var_in, with_new, without_repeats};
ghost use Rattle.cyp_term.specs.declared.term.Sort.TheVariants.{Int};
ghost use Rattle.cyp_term.specs.declared.term.Var.{Var as TheVar};

use crate::clause_limits::{MOST_ELEMENTS, MOST_INTS, MOST_SETS};
use crate::elements::{add_args_elements, add_lits_elements, are_few};
use cyp_heap::{Arg, Chunk, Goal};
use cyp_term::{Lit, NoMemory, SetTerm, Sort, Term, Var};
use std::alloc::Global;

/// The limits of a goal as it is written.
const MOST_CHUNKS: usize = 16;

const MOST_LITS: usize = 40;

const MOST_PROGRAM: usize = 12;

// ---- variables, with repeats

fn add_base(vars: &mut Vec<Var>, term: &Term) -> Result<(), NoMemory>
    ensures { OnOk result (vars.new.items ≡ vars.old.items ++ term_vars term.now) }
{
    if let Some(var) = term.base() {
        vars.push(var)?;
    }
    Ok(())
}

fn add_bases(vars: &mut Vec<Var>, terms: &[Term]) -> Result<(), NoMemory>
    ensures { OnOk result (vars.new.items ≡ vars.old.items ++ flat_map (λ t. term_vars t) terms.now) }
{
    for term in terms {
        add_base(vars, term)?;
    }
    Ok(())
}

fn add_set_vars(vars: &mut Vec<Var>, set: &SetTerm) -> Result<(), NoMemory>
    ensures { OnOk result (vars.new.items ≡ vars.old.items ++ set_vars set.now) }
{
    vars.extend_from_slice(set.vars())?;
    add_bases(vars, set.elems())
}

fn add_lit_vars(vars: &mut Vec<Var>, lit: &Lit) -> Result<(), NoMemory>
    ensures { OnOk result (vars.new.items ≡ vars.old.items ++ lit_vars lit.now) }
{
    match lit {
        Lit::Eq(a, b) | Lit::Ne(a, b) | Lit::Le(a, b) | Lit::Lt(a, b) => {
            add_base(vars, a)?;
            add_base(vars, b)
        }
        Lit::Same(a, b) | Lit::NotSame(a, b) | Lit::Sub(a, b) | Lit::NotSub(a, b) => {
            add_set_vars(vars, a)?;
            add_set_vars(vars, b)
        }
        Lit::Member(a, b) | Lit::NotMember(a, b) => {
            add_base(vars, a)?;
            add_set_vars(vars, b)
        }
    }
}

fn add_lits_vars(vars: &mut Vec<Var>, lits: &[Lit]) -> Result<(), NoMemory>
    ensures { OnOk result (vars.new.items ≡ vars.old.items ++ lits_vars lits.now) }
{
    for lit in lits {
        add_lit_vars(vars, lit)?;
    }
    Ok(())
}

fn add_arg_vars(vars: &mut Vec<Var>, arg: &Arg) -> Result<(), NoMemory>
    ensures { OnOk result (vars.new.items ≡ vars.old.items ++ arg_vars arg.now) }
{
    match arg {
        Arg::Int(term) => add_base(vars, term),
        Arg::Set(set) => add_set_vars(vars, set),
    }
}

fn add_args_vars(vars: &mut Vec<Var>, args: &[Arg]) -> Result<(), NoMemory>
    ensures { OnOk result (vars.new.items ≡ vars.old.items ++ flat_map arg_vars args.now) }
{
    for arg in args {
        add_arg_vars(vars, arg)?;
    }
    Ok(())
}

fn add_card(vars: &mut Vec<Var>, card: Option<Var>) -> Result<(), NoMemory>
    ensures { OnOk result (vars.new.items ≡ vars.old.items ++ card_vars card) }
{
    if let Some(var) = card {
        vars.push(var)?;
    }
    Ok(())
}

fn add_chunk_vars(vars: &mut Vec<Var>, chunk: &Chunk) -> Result<(), NoMemory>
    ensures { OnOk result (vars.new.items ≡ vars.old.items ++ chunk_vars chunk.now) }
{
    match chunk {
        Chunk::Inst(inst) => {
            add_args_vars(vars, inst.args.as_slice())?;
            add_card(vars, inst.card)
        }
        Chunk::Block(block) => add_base(vars, &block.at()),
        Chunk::Cell(cell) => {
            add_base(vars, &cell.at)?;
            add_base(vars, &cell.content)
        }
    }
}

fn add_chunks_vars(vars: &mut Vec<Var>, chunks: &[Chunk]) -> Result<(), NoMemory>
    ensures { OnOk result (vars.new.items ≡ vars.old.items ++ chunks_vars chunks.now) }
{
    for chunk in chunks {
        add_chunk_vars(vars, chunk)?;
    }
    Ok(())
}

/// The variables of a goal, each as often as it stands there.
fn vars_of(alloc: Global, goal: &Goal) -> Result<Vec<Var>, NoMemory>
    ensures { IfOk result (λ v. v.items ≡ goal_vars goal.now) }
{
    let mut vars = Vec::new(alloc);
    vars.extend_from_slice(goal.program.as_slice())?;
    add_chunks_vars(&mut vars, goal.pre.chunks())?;
    add_chunks_vars(&mut vars, goal.post.chunks())?;
    add_lits_vars(&mut vars, goal.pure_pre.as_slice())?;
    add_lits_vars(&mut vars, goal.pure_post.as_slice())?;
    Ok(vars)
}

fn is_among(var: Var, vars: &[Var]) -> bool
    ensures { result ≡ var_in var vars.now }
{
    vars.iter().any(|other| var == *other)
}

fn add_new(found: &mut Vec<Var>, var: Var) -> Result<(), NoMemory>
    ensures { OnOk result (found.new.items ≡ with_new var_eq found.old.items var) }
{
    if !is_among(var, found.as_slice()) {
        found.push(var)?;
    }
    Ok(())
}

fn different(alloc: Global, vars: &[Var]) -> Result<Vec<Var>, NoMemory>
    ensures { IfOk result (λ v. v.items ≡ without_repeats var_eq vars.now) }
{
    let mut found = Vec::new(alloc);
    for var in vars {
        add_new(&mut found, *var)?;
    }
    Ok(found)
}

fn count_ints(vars: &[Var]) -> usize
    ensures { result ≡ length (filter (λ (v : TheVar). sort_eq v.sort Int) vars.now) }
{
    vars.iter().filter(|var| var.sort == Sort::Int).count()
}

fn count_sets(vars: &[Var]) -> usize
    ensures { result ≡ length (filter is_set_var vars.now) }
{
    vars.iter().filter(|var| var.sort == Sort::Set).count()
}

// ---- element terms

fn add_chunk_elements(terms: &mut Vec<Term>, chunk: &Chunk) -> Result<(), NoMemory>
    ensures { OnOk result (terms.new.items ≡ terms.old.items ++ chunk_elements chunk.now) }
{
    match chunk {
        Chunk::Inst(inst) => add_args_elements(terms, inst.args.as_slice()),
        Chunk::Block(_) | Chunk::Cell(_) => Ok(()),
    }
}

fn add_chunks_elements(terms: &mut Vec<Term>, chunks: &[Chunk]) -> Result<(), NoMemory>
    ensures { OnOk result (terms.new.items ≡ terms.old.items ++ flat_map chunk_elements chunks.now) }
{
    for chunk in chunks {
        add_chunk_elements(terms, chunk)?;
    }
    Ok(())
}

/// The element terms of a goal, each as often as it stands there.
fn elements_of(alloc: Global, goal: &Goal) -> Result<Vec<Term>, NoMemory>
    ensures { IfOk result (λ v. v.items ≡ goal_elements goal.now) }
{
    let mut terms = Vec::new(alloc);
    add_lits_elements(&mut terms, goal.pure_pre.as_slice())?;
    add_chunks_elements(&mut terms, goal.pre.chunks())?;
    add_lits_elements(&mut terms, goal.pure_post.as_slice())?;
    add_chunks_elements(&mut terms, goal.post.chunks())?;
    Ok(terms)
}

// ---- limits

/// Whether a goal with these different variables passes no limit as it is written, where it is told
/// whether its element terms are few.
fn is_within(goal: &Goal, vars: &[Var], elements_are_few: bool) -> bool
    ensures { result ≡ is_goal_with goal.now vars.now elements_are_few }
{
    goal.pre.chunks().len() <= MOST_CHUNKS
        && goal.post.chunks().len() <= MOST_CHUNKS
        && goal.pure_pre.len() <= MOST_LITS
        && goal.pure_post.len() <= MOST_LITS
        && goal.program.len() <= MOST_PROGRAM
        && count_ints(vars) <= MOST_INTS
        && count_sets(vars) <= MOST_SETS
        && elements_are_few
}

/// Whether a goal passes no limit as it is written.
pub(crate) fn is_goal_within(alloc: Global, goal: &Goal) -> Result<bool, NoMemory>
    ensures { IfOk result (λ b. b ≡ is_goal_within goal.now) }
{
    let all = vars_of(alloc, goal)?;
    let vars = different(alloc, all.as_slice())?;
    let terms = elements_of(alloc, goal)?;
    let few = are_few(alloc, terms.as_slice(), MOST_ELEMENTS)?;
    Ok(is_within(goal, vars.as_slice(), few))
}
