//! The normal form of a goal with its companions.

ghost use Rattle.cyp_goal.specs.Normal.{keep_limits, normal};
ghost use Rattle.cyp_goal.specs.Ready.{IsReady};
ghost use Rattle.cyp_heap.specs.Formed.{IsWellLinked};
ghost use Rattle.cyp_term.specs.Answers.{GivesWhere};

use crate::draft::{Draft, TooLarge};
use crate::limits::is_within_limits;
use crate::numbering::{add_node_vars, renumber};
use crate::pruning::prune;
use crate::solving::solve;
use crate::tidying::tidy;
use crate::var_table::VarTable;
use cyp_heap::{Node, Raw};
use cyp_term::{Copied, Fail, List, Var};
use std::alloc::Global;
use std::marker::Model;

/// A node in normal form, and what each of its program variables was called before all variables
/// were numbered anew.
#[derive(Debug, Drop, PartialEq, Eq, Hash)]
pub struct Renamed {
    pub node: Node,
    pub old: List<Var>,
}

impl Model for Renamed {
    ghost use Rattle.cyp_goal.specs.Normal.{Renaming};

    ghost Value = { Renaming };

    ghost view = { λ r. record { node = r.node; old = r.old } };

    ghost inverse = { λ r. record { node = r.node; old = r.old } };
}

/// The draft numbered anew. It is `TooLarge` exactly where a limit of a node is passed.
fn numbered(alloc: Global, draft: Draft) -> Result<Renamed, Fail<TooLarge>>
    requires { IsReady draft }
    ensures { GivesWhere (keep_limits draft) result }
{
    let mut names = VarTable::new();
    add_node_vars(&draft, &mut names);
    let old = draft.goal.program.copy(alloc)?;
    let draft = renumber(alloc, draft, &names)?;
    if !is_within_limits(alloc, &draft, &names)? {
        return Err(Fail::Named(TooLarge));
    }
    let Draft { preds, goal, links } = draft;
    let node = Node::new(preds, goal, links);
    Ok(Renamed { node, old })
}

/// The normal form. In this order: equations of the pre are solved for logical variables and those
/// of the post for existentials; plain truths and repeats are dropped, and the least address of each
/// base is said to be positive; literals, program variables, existentials and entries of maps that
/// don't matter are dropped; and variables are numbered by first occurrence, each sort from 0. It is
/// `TooLarge` exactly where a limit of a node is passed, or an offset passes 2^32 in size.
pub fn normal(alloc: Global, raw: Raw) -> Result<Renamed, Fail<TooLarge>>
    requires { IsWellLinked raw }
    ensures { GivesWhere (normal raw) result }
{
    let (preds, goal, links) = raw.into_parts();
    let solved = solve(alloc, Draft { preds, goal, links })?;
    let tidied = tidy(alloc, solved)?;
    let pruned = prune(alloc, tidied)?;
    numbered(alloc, pruned)
}
