ghost use Rattle.std.specs.Prelude.{◌≡◌, ◌≤◌, length};
ghost use Rattle.cyp_space.specs.Alts.{premises_in};

use cyp_term::{List, Shared};
use std::marker::Model;

/// A way to go on from a node: a rule with its cost, at most 255, and what it leaves to solve,
/// at most 255 nodes.
#[derive(Debug, Drop)]
pub struct Alt<R, N> {
    rule: R,
    cost: u32,
    premises: List<Shared<N>>,
}

impl<R, N> Model for Alt<R, N> {
    ghost use Rattle.std.specs.Prelude.{◌≤◌, length};
    ghost use Rattle.cyp_space.specs.Alts.{AltOf, alt_code};

    ghost Value = { AltOf R N };

    ghost coded = { alt_code R.code N.code };

    ghost view = { λ a. record { rule = a.rule; cost = a.cost; premises = a.premises } };

    ghost invariant = { λ a. (a.cost ≤ 255) × (length a.premises ≤ 255) };
}

impl<R, N> Alt<R, N> {
    /// The way to solve a node by this rule at this cost, once these premises are solved.
    pub fn new(rule: R, cost: u32, premises: List<Shared<N>>) -> Alt<R, N>
        requires cheap { cost ≤ 255 }
        requires few { length premises ≤ 255 }
        ensures { result ≡ record { rule = rule; cost = cost; premises = premises } }
    {
        Alt {
            rule,
            cost,
            premises,
        }
    }

    /// The rule that is used.
    pub fn rule(&self) -> &R
        ensures { result.now ≡ self.now.rule }
    {
        &self.rule
    }

    /// What the use of the rule adds to the cost of a path, at most 255.
    pub fn cost(&self) -> u32
        ensures value { result ≡ self.now.cost }
        ensures bound { result ≤ 255 }
    {
        self.cost
    }

    /// The nodes that are left to solve, in order, at most 255.
    pub fn premises(&self) -> &[Shared<N>]
        ensures value { result.now ≡ self.now.premises }
        ensures bound { length result.now ≤ 255 }
    {
        self.premises.as_slice()
    }

    /// The rule, the cost and the premises.
    pub fn into_parts(self) -> (R, u32, List<Shared<N>>)
        ensures rule { result.0 ≡ self.rule }
        ensures cost { result.1 ≡ self.cost }
        ensures premises { result.2 ≡ self.premises }
        ensures cheap { result.1 ≤ 255 }
        ensures few { length result.2 ≤ 255 }
    {
        let Alt {
            rule,
            cost,
            premises,
        } = self;
        (rule, cost, premises)
    }
}

/// The alternatives of a node in order, at most 48.
#[derive(Debug, Drop)]
pub struct Moves<R, N> {
    alts: List<Alt<R, N>>,
}

impl<R, N> Model for Moves<R, N> {
    ghost use Rattle.std.specs.Prelude.{◌≤◌, List, length};
    ghost use Rattle.std.specs.Coded.{coded_list};
    ghost use Rattle.cyp_space.specs.Alts.{AltOf, alt_code};

    ghost Value = { List (AltOf R N) };

    ghost coded = { coded_list (alt_code R.code N.code) };

    ghost view = { λ m. m.alts };

    ghost invariant = { λ m. length m.alts ≤ 48 };
}

impl<R, N> Moves<R, N> {
    /// The moves of a node: these alternatives in this order, at most 48.
    pub fn new(alts: List<Alt<R, N>>) -> Moves<R, N>
        requires { length alts ≤ 48 }
        ensures { result ≡ alts }
    {
        Moves { alts }
    }

    /// The alternatives in order, at most 48.
    pub fn alts(&self) -> &[Alt<R, N>]
        ensures value { result.now ≡ self.now }
        ensures bound { length result.now ≤ 48 }
    {
        self.alts.as_slice()
    }

    /// Gives up the moves for their alternatives, in the same order.
    pub fn into_alts(self) -> List<Alt<R, N>>
        ensures value { result ≡ self }
        ensures bound { length result ≤ 48 }
    {
        let Moves { alts } = self;
        alts
    }
}

/// How many premises the alternatives of a node, at most 48, have together.
pub fn count_of_premises<R, N>(alts: &[Alt<R, N>]) -> u32
    requires { length alts.now ≤ 48 }
    ensures value { result ≡ premises_in alts.now }
    ensures bound { result ≤ 12240 }
{
    let mut count = 0;
    for alt in alts {
        count += alt.premises().len() as u32;
    }
    count
}
