ghost use Rattle.std.specs.Prelude.{◌≡◌, [], ◌++◌, ◌&&◌, ◌==◌, IfOk, length, map, not};
ghost use Rattle.std.specs.List.{filter, flat_map, list_all, list_any};
ghost use Rattle.cyp_goal.specs.Alive.{alive_images, alive_link, is_alive};
ghost use Rattle.cyp_goal.specs.Pruning.{is_kept, live_vars, only_vars, prune, spread, spread_times};
ghost use Rattle.cyp_heap.specs.Chunks.{chunks_vars};
ghost use Rattle.cyp_heap.specs.Goals.{tuple_vars};
ghost use Rattle.cyp_term.specs.Terms.{lit_vars, lits_vars, set_vars, term_vars, var_eq, var_in, with_all_new, without_repeats};

use crate::draft::Draft;
use crate::occurs::{Occurs, add_all};
use crate::touches::Touches;
use crate::var_table::VarTable;
use cyp_heap::{Goal, Link};
use cyp_term::{IntBind, List, Lit, NoMemory, SetBind, SetTerm, Subst, Term, Var};
use std::alloc::Global;

/// The variables of the companions' measures are added.
fn add_tuples(links: &[Link], table: &mut VarTable)
    ensures { table.new ≡ with_all_new var_eq table.old (tuple_vars links.now) }
{
    for link in links {
        add_all(link.tuple.as_slice(), table);
    }
}

/// The variables of each literal that has a live one become live.
fn spread(lits: &[Lit], live: &mut VarTable)
    ensures { live.new ≡ spread lits.now live.old }
{
    for lit in lits {
        if lit.meets(live) {
            lit.add_to(live);
        }
    }
}

/// The same until nothing changes.
fn spread_all(lits: &[Lit], live: &mut VarTable)
    ensures { live.new ≡ spread_times (length lits.now) lits.now live.old }
{
    for _turn in 0..lits.len() {
        let before = live.len();
        spread(lits, live);
        if live.len() == before {
            return;
        }
    }
}

/// The live variables are added to an empty table.
fn add_live(draft: &Draft, live: &mut VarTable)
    requires { live.old ≡ [] }
    ensures { live.new ≡ live_vars draft.now }
{
    let goal = &draft.goal;
    add_all(goal.program.as_slice(), live);
    add_all(goal.pre.chunks(), live);
    add_all(goal.post.chunks(), live);
    add_all(goal.pure_post.as_slice(), live);
    add_tuples(draft.links.as_slice(), live);
    spread_all(goal.pure_pre.as_slice(), live);
}

/// Whether the literal has a live variable, or no variable at all.
fn is_kept(lit: &Lit, live: &VarTable) -> bool
    ensures { result ≡ is_kept live.now lit.now }
{
    lit.meets(live) || lit.is_closed()
}

fn keep_live(lits: List<Lit>, live: &VarTable) -> List<Lit>
    ensures { result ≡ filter (is_kept live.now) lits }
{
    let mut lits = lits.into_vec();
    lits.retain(|lit| is_kept(lit, live));
    List::from_vec(lits)
}

fn keep_vars(vars: List<Var>, table: &VarTable) -> List<Var>
    ensures { result ≡ filter (λ v. var_in v table.now) vars }
{
    let mut vars = vars.into_vec();
    vars.retain(|var| table.has(*var));
    List::from_vec(vars)
}

/// Adds the variables that aren't in the second table.
fn add_others(dropped: &mut VarTable, vars: &[Var], table: &VarTable)
    ensures { dropped.new ≡ with_all_new var_eq dropped.old (filter (λ v. not (var_in v table.now)) vars.now) }
{
    for var in vars {
        if !table.has(*var) {
            dropped.add(*var);
        }
    }
}

fn is_alive(var: Var, live: &VarTable, dropped: &VarTable) -> bool
    ensures { result ≡ is_alive live.now dropped.now var }
{
    live.has(var) && !dropped.has(var)
}

fn is_term_alive(term: &Term, live: &VarTable, dropped: &VarTable) -> bool
    ensures { result ≡ list_all (is_alive live.now dropped.now) (term_vars term.now) }
{
    match term.base() {
        Some(var) => is_alive(var, live, dropped),
        None => true,
    }
}

fn are_vars_alive(vars: &[Var], live: &VarTable, dropped: &VarTable) -> bool
    ensures { result ≡ list_all (is_alive live.now dropped.now) vars.now }
{
    for var in vars {
        if !is_alive(*var, live, dropped) {
            return false;
        }
    }
    true
}

fn are_terms_alive(terms: &[Term], live: &VarTable, dropped: &VarTable) -> bool
    ensures { result ≡ list_all (is_alive live.now dropped.now) (flat_map term_vars terms.now) }
{
    for term in terms {
        if !is_term_alive(term, live, dropped) {
            return false;
        }
    }
    true
}

fn is_set_alive(set: &SetTerm, live: &VarTable, dropped: &VarTable) -> bool
    ensures { result ≡ list_all (is_alive live.now dropped.now) (set_vars set.now) }
{
    are_vars_alive(set.vars(), live, dropped) && are_terms_alive(set.elems(), live, dropped)
}

/// The entries of a map whose images have live variables alone that aren't dropped.
fn keep_images(map: Subst, live: &VarTable, dropped: &VarTable) -> Subst
    ensures { result ≡ alive_images live.now dropped.now map }
{
    let Subst { ints, sets } = map;
    let mut ints = ints.into_vec();
    ints.retain(|bind| is_term_alive(&bind.to, live, dropped));
    let mut sets = sets.into_vec();
    sets.retain(|bind| is_set_alive(&bind.to, live, dropped));
    Subst {
        ints: List::from_vec(ints),
        sets: List::from_vec(sets),
    }
}

fn prune_link(link: Link, live: &VarTable, dropped: &VarTable) -> Link
    ensures { result ≡ alive_link live.now dropped.now link }
{
    let Link {
        goal,
        own,
        map,
        tuple,
    } = link;
    Link {
        goal,
        own,
        map: keep_images(map, live, dropped),
        tuple,
    }
}

fn prune_links(
    alloc: Global,
    links: List<Link>,
    live: &VarTable,
    dropped: &VarTable,
) -> Result<List<Link>, NoMemory>
    ensures { IfOk result (λ ks. ks ≡ map (alive_link live.now dropped.now) links) }
{
    let mut pruned = Vec::with_capacity(alloc, links.len())?;
    for link in links.into_vec() {
        pruned.push(prune_link(link, live, dropped))?;
    }
    Ok(List::from_vec(pruned))
}

/// The variables of the post are added.
fn add_post(goal: &Goal, table: &mut VarTable)
    ensures { table.new ≡ with_all_new var_eq table.old (chunks_vars goal.now.post.chunks ++ lits_vars goal.now.pure_post) }
{
    add_all(goal.post.chunks(), table);
    add_all(goal.pure_post.as_slice(), table);
}

/// The variables of chunks, literals and the companions' measures are added.
fn add_used(goal: &Goal, links: &[Link], table: &mut VarTable)
    ensures { table.new ≡ with_all_new var_eq table.old (chunks_vars goal.now.pre.chunks ++ chunks_vars goal.now.post.chunks ++ lits_vars goal.now.pure_pre ++ lits_vars goal.now.pure_post ++ tuple_vars links.now) }
{
    add_all(goal.pre.chunks(), table);
    add_all(goal.post.chunks(), table);
    add_all(goal.pure_pre.as_slice(), table);
    add_all(goal.pure_post.as_slice(), table);
    add_tuples(links, table);
}

/// Drops literals without a live variable, then unused program variables and existentials, then
/// entries of maps with a dead image.
pub(crate) fn prune(alloc: Global, draft: Draft) -> Result<Draft, NoMemory>
    ensures { IfOk result (λ d. d ≡ prune draft) }
{
    let mut live = VarTable::new();
    add_live(&draft, &mut live);
    let Draft {
        preds,
        mut goal,
        links,
    } = draft;
    goal.pure_pre = keep_live(goal.pure_pre, &live);
    let mut used = VarTable::new();
    add_used(&goal, links.as_slice(), &mut used);
    let mut late = VarTable::new();
    add_post(&goal, &mut late);
    let mut dropped = VarTable::new();
    add_others(&mut dropped, goal.program.as_slice(), &used);
    add_others(&mut dropped, goal.exist.as_slice(), &late);
    goal.program = keep_vars(goal.program, &used);
    goal.exist = keep_vars(goal.exist, &late);
    let links = prune_links(alloc, links, &live, &dropped)?;
    Ok(Draft { preds, goal, links })
}
