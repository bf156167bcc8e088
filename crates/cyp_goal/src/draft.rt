ghost use Rattle.std.specs.Prelude.{◌≡◌, IfOk, false};
ghost use Rattle.cyp_goal.specs.Failures.{Larger};
ghost use Rattle.cyp_goal.specs.Solving.{substitute};
ghost use Rattle.cyp_term.specs.Terms.{wide_subst};
ghost use Rattle.cyp_goal.specs.Turns.{SameNames};
ghost use Rattle.cyp_term.specs.Answers.{GivesWhere};

use crate::substitution::{apply_goal, apply_links};
use cyp_heap::{Goal, Link, Preds};
use cyp_term::{Fail, List, Shared, Subst, TooWide};
use std::alloc::Global;
use std::marker::Model;
use thiserror::Error;

/// A limit of a node or of an offset is passed.
#[derive(Clone, Copy, Debug, PartialEq, Eq, Hash, Error)]
#[error("a limit of a node or of an offset is passed")]
pub struct TooLarge;

/// A node on its way to the normal form.
#[derive(Drop)]
pub(crate) struct Draft {
    pub(crate) preds: Shared<Preds>,
    pub(crate) goal: Goal,
    pub(crate) links: List<Link>,
}

impl Model for Draft {
    ghost use Rattle.cyp_heap.specs.NodeValue.{NodeValue};

    ghost Value = { NodeValue };

    ghost view = { λ n. record { preds = n.preds; goal = n.goal; links = n.links } };

    ghost inverse = { λ n. record { preds = n.preds; goal = n.goal; links = n.links } };
}

/// An offset past 2^32 passes a limit.
pub(crate) fn too_large(fail: Fail<TooWide>) -> Fail<TooLarge>
    ensures { Larger fail result }
{
    match fail {
        Fail::Named(TooWide) => Fail::Named(TooLarge),
        Fail::NoMemory => Fail::NoMemory,
    }
}

impl Draft {
    /// The substitution in the whole draft. It is `TooLarge` exactly where an offset passes 2^32 in
    /// size.
    pub(crate) fn substituted(self, alloc: Global, by: &Subst) -> Result<Draft, Fail<TooLarge>>
        requires { wide_subst by.now ≡ false }
        ensures gives { GivesWhere (substitute by.now self) result }
        ensures names { IfOk result (λ d. SameNames self d) }
    {
        let Draft { preds, goal, links } = self;
        let goal = apply_goal(alloc, goal, by).map_err(too_large)?;
        let links = apply_links(alloc, links, by).map_err(too_large)?;
        Ok(Draft { preds, goal, links })
    }
}
