ghost use Rattle.std.specs.Prelude.{◌≡◌, ℕ, ◌≤◌, IfOk, IsErrOf, IsTrue};
ghost use Rattle.cyp_space.specs.Stops.{Rose};

use crate::moves::Moves;
use crate::stop::{Stop, Stopped};
use cyp_term::{Copied, Fail, Shared};
use std::alloc::Global;

/// Nodes with their moves and weights. To solve a node is to solve all premises of one of its
/// alternatives.
pub trait Space {
    ghost use Rattle.std.specs.Prelude.{List, ℕ};
    ghost use Rattle.cyp_space.specs.Alts.{AltOf};

    type Node: Drop;

    type Rule: Copied + Drop;

    /// The alternatives of a node, in order.
    ghost moves_of: { Self → Self.Node → List (AltOf Self.Rule Self.Node) };

    ghost weight_of: { Self → Self.Node → ℕ };

    fn moves<P: Stop>(
        &self,
        alloc: Global,
        node: &Shared<Self::Node>,
        stop: &mut P,
    ) -> Result<Moves<Self::Rule, Self::Node>, Fail<Stopped>>
        ensures found { IfOk result (λ m. m ≡ moves_of self.now node.now) }
        ensures never_falls { P.told stop.old ≤ P.told stop.new }
        ensures cause { IsErrOf result (Fail.Named record {}) → Rose (P.told stop.old) (P.told stop.new) };

    fn weight(&self, node: &Self::Node) -> u32
        ensures value { result ≡ weight_of self.now node.now }
        ensures bound { result ≤ 65535 };

    /// Whether the two spaces have the same moves and weights.
    fn same(&self, other: &Self) -> bool
        ensures yes { IsTrue result → (n : Self.Node) → (moves_of self.now n ≡ moves_of other.now n) × (weight_of self.now n ≡ weight_of other.now n) }
        ensures itself { self.now ≡ other.now → IsTrue result };
}
