//! The next free numbers of variables at a node.

ghost use Rattle.std.specs.Prelude.{IfOk, IsTrue, flat_map, max, nat_lt, suc, ◌++◌, ◌<◌, ◌≡◌, ◌≤◌, if◌then◌else◌};
ghost use Rattle.std.specs.List.{list_all};
ghost use Rattle.cyp_heap.specs.Goals.{goal_vars, image_vars};
ghost use Rattle.cyp_step.specs.Changes.{above, next_of};
ghost use Rattle.cyp_term.specs.Terms.{sort_eq, term_vars};

use crate::occurs::{add_all, goal_vars};
use cyp_heap::Node;
use cyp_pred::Next;
use cyp_term::{NoMemory, Sort, Var};
use std::alloc::Global;

fn raised(next: u8, var: Var, sort: Sort) -> u8
    requires next { next ≤ 32 }
    requires var { var.number < 32 }
    ensures value { result ≡ (if sort_eq var.sort sort then max next (suc var.number) else next) }
    ensures most { result ≤ 32 }
{
    if var.sort == sort && next <= var.number {
        var.number + 1
    } else {
        next
    }
}

/// One more than the greatest number of a variable of the sort, and 0 where there is none.
fn above(vars: &[Var], sort: Sort) -> u8
    requires { IsTrue (list_all (λ v. nat_lt v.number 32) vars.now) }
    ensures above { result ≡ above sort vars.now }
    ensures most { result ≤ 32 }
{
    let mut next = 0;
    for var in vars {
        next = raised(next, *var, sort);
    }
    next
}

/// The variables of the node, with repeats.
pub(crate) fn vars_of_node(alloc: Global, node: &Node) -> Result<Vec<Var>, NoMemory>
    ensures { IfOk result (λ vs. vs.items ≡ goal_vars node.now.goal ++ flat_map (λ k. flat_map term_vars k.tuple ++ image_vars k.map) node.now.links) }
{
    let mut vars = goal_vars(alloc, node.goal())?;
    add_all(node.links().as_slice(), &mut vars)?;
    Ok(vars)
}

/// The variables of the node, then its existentials, some of which may stand nowhere.
fn vars_and_exist(alloc: Global, node: &Node) -> Result<Vec<Var>, NoMemory>
    ensures vars { IfOk result (λ vs. vs.items ≡ goal_vars node.now.goal ++ flat_map (λ k. flat_map term_vars k.tuple ++ image_vars k.map) node.now.links ++ node.now.goal.exist) }
    ensures low { IfOk result (λ vs. IsTrue (list_all (λ v. nat_lt v.number 32) vs.items)) }
{
    let mut vars = vars_of_node(alloc, node)?;
    vars.extend_from_slice(node.goal().exist.as_slice())?;
    Ok(vars)
}

/// For each sort the least number above those of its variables in the node. It is at most 32.
pub fn next_of(alloc: Global, node: &Node) -> Result<Next, NoMemory>
    ensures next { IfOk result (λ next. next ≡ next_of node.now) }
    ensures low { IfOk result (λ next. next.ints ≤ 32) }
    ensures low_cards { IfOk result (λ next. next.cards ≤ 32) }
    ensures low_sets { IfOk result (λ next. next.sets ≤ 32) }
{
    let vars = vars_and_exist(alloc, node)?;
    let vars = vars.as_slice();
    Ok(Next {
        ints: above(vars, Sort::Int),
        cards: above(vars, Sort::Card),
        sets: above(vars, Sort::Set),
    })
}
