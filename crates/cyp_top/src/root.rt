//! The root of the search for a program of a specification.

ghost use Rattle.std.specs.Prelude.{IfOk, ◌≡◌};
ghost use Rattle.cyp_spec.specs.KeepsSpec.{KeepsSpec};
ghost use Rattle.cyp_top.specs.Roots.{root_of, spec_node};

use cyp_goal::normal;
use cyp_heap::{Node, Raw};
use cyp_spec::Spec;
use cyp_term::{Copied, Fail, List, NoMemory};
use std::alloc::Global;

/// The goal over its predicates, without companions.
fn raw_of_spec(alloc: Global, spec: &Spec) -> Result<Raw, NoMemory>
    ensures node { IfOk result (λ r. r ≡ spec_node spec.now) }
    ensures keeps { KeepsSpec spec.now }
{
    let preds = spec.preds().copy(alloc)?;
    let goal = spec.goal().copy(alloc)?;
    Ok(Raw::new(preds, goal, List::from_vec(Vec::new(alloc))))
}

/// The root of the search for a program of a specification: the normal form of its goal.
pub(crate) fn root_of_spec(alloc: Global, spec: &Spec) -> Result<Node, NoMemory>
    ensures { IfOk result (λ n. n ≡ root_of spec.now) }
{
    let raw = raw_of_spec(alloc, spec)?;
    match normal(alloc, raw) {
        Ok(renamed) => Ok(renamed.node),
        Err(Fail::Named(_)) => unreachable!(),
        Err(Fail::NoMemory) => Err(NoMemory),
    }
}
