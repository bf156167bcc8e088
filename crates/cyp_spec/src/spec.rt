ghost use Rattle.std.specs.Prelude.{◌≡◌};
ghost use Rattle.cyp_spec.specs.KeepsSpec.{KeepsSpec};

use cyp_heap::{Goal, Preds};
use cyp_term::{Shared, Text};
use std::marker::Model;

/// A specification: predicates, the name of the procedure that is asked for, and its goal. The goal
/// is formed, and no limit is passed by it or by its normal form.
#[derive(Debug, Drop)]
pub struct Spec {
    preds: Shared<Preds>,
    name: Text,
    goal: Goal,
}

impl Model for Spec {
    ghost use Rattle.cyp_spec.specs.KeepsSpec.{KeepsSpec};
    ghost use Rattle.cyp_names.specs.Specifications.{Specification};

    ghost Value = { Specification };

    ghost view = { λ s. record { preds = s.preds; name = s.name; goal = s.goal } };

    ghost invariant = { λ s. KeepsSpec (record { preds = s.preds; name = s.name; goal = s.goal }) };

    ghost inverse = { λ s. record { preds = s.preds; name = s.name; goal = s.goal } };
}

impl Spec {
    /// The specification of a procedure of this name with this goal over these predicates.
    pub fn new(preds: Shared<Preds>, name: Text, goal: Goal) -> Spec
        requires { KeepsSpec (record { preds = preds; name = name; goal = goal }) }
        ensures { result ≡ record { preds = preds; name = name; goal = goal } }
    {
        Spec { preds, name, goal }
    }

    /// The predicates.
    pub fn preds(&self) -> &Shared<Preds>
        ensures preds { result.now ≡ self.now.preds }
        ensures keeps { KeepsSpec self.now }
    {
        &self.preds
    }

    /// The name of the procedure.
    pub fn name(&self) -> &Text
        ensures { result.now ≡ self.now.name }
    {
        &self.name
    }

    /// The goal.
    pub fn goal(&self) -> &Goal
        ensures goal { result.now ≡ self.now.goal }
        ensures keeps { KeepsSpec self.now }
    {
        &self.goal
    }

    /// The predicates, the name and the goal.
    pub fn into_parts(self) -> (Shared<Preds>, Text, Goal)
        ensures parts { result ≡ (self.preds, self.name, self.goal) }
        ensures keeps { KeepsSpec self }
    {
        let Spec { preds, name, goal } = self;
        (preds, name, goal)
    }
}
