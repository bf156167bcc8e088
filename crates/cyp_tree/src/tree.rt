ghost use Rattle.std.specs.Prelude.{◌≡◌, ℕ, ◌≤◌, ◌<◌, ◌↔◌, IsTrue, IsSome, IfOk, OnOk, OnErr, [], ◌∷◌};
ghost use Rattle.std.specs.Option.{option_map};
ghost use Rattle.cyp_tree.specs.declared.mark.Mark.TheVariants.{Solved as is_solved};
ghost use Rattle.cyp_tree.specs.Trees.{Leaf};
ghost use Rattle.cyp_tree.specs.Statuses.{status};
ghost use Rattle.cyp_tree.specs.Sizes.{size, depth};
ghost use Rattle.cyp_tree.specs.Derivations.{plain_derivation, chosen_derivation};
ghost use Rattle.cyp_tree.specs.Growing.{graft, new_alts};
ghost use Rattle.cyp_tree.specs.Numbers.{IsNumbered};
ghost use Rattle.cyp_tree.specs.Places.{IsLive, HasPlace};
ghost use Rattle.cyp_tree.specs.Wholes.{AreKilled};

use crate::arena::Arena;
use crate::grafted::Grafted;
use crate::mark::Mark;
use cyp_space::{Moves, Solved};
use cyp_term::{Copied, List, NoMemory, Shared};
use std::alloc::Global;
use std::marker::Model;

/// An and-or tree, which contracts see whole.
#[derive(Drop)]
pub struct Tree<R, N> {
    arena: Arena<R, N>,
    deepest: u32,
}

impl<R, N> Model for Tree<R, N> {
    ghost use Rattle.cyp_tree.specs.Trees.{Tree as WholeTree};
    ghost use Rattle.cyp_tree.specs.Codes.{tree_code};
    ghost use Rattle.cyp_tree.specs.Standing.{standing};
    ghost use Rattle.cyp_tree.specs.Wholes.{IsTree};

    ghost Value = { WholeTree R N };

    ghost coded = { tree_code R.code N.code };

    ghost view = { λ a. standing a.arena.root a.arena.places.items a.arena.ways.items };

    ghost invariant = { λ a. IsTree a.arena.root a.arena.places.items a.arena.ways.items a.arena.marks a.deepest };
}

impl<R, N> Tree<R, N> {
    /// Whether the number is that of a live leaf.
    pub fn alive(&self, leaf: u32) -> bool
        ensures { IsTrue result ↔ IsLive self.now leaf }
    {
        self.arena.alive(leaf)
    }

    /// The root's status.
    pub fn mark(&self) -> Mark
        ensures { result ≡ status self.now }
    {
        self.arena.marks.statuses[0]
    }

    /// How many nodes the tree has. Their numbers are those below.
    pub fn count(&self) -> u32
        ensures value { result ≡ size self.now }
        ensures bound { result ≤ 1000000 }
        ensures numbered { IsNumbered self.now }
    {
        self.arena.places.len() as u32
    }

    /// The most expansions on a path from the root to a node, that of the node itself not counted.
    pub fn depth(&self) -> u32
        ensures { result ≡ depth self.now }
    {
        self.deepest
    }
}

impl<R, N> Tree<R, N> {
    /// The node of a number.
    pub fn node(&self, place: u32) -> &Shared<N>
        requires { place < size self.now }
        ensures { (c : ℕ) × HasPlace self.now place c result.now }
    {
        &self.arena.places[place as usize].node
    }

    /// The cost of the path to the node of a number.
    pub fn cost(&self, place: u32) -> u32
        requires { place < size self.now }
        ensures value { (n : N) × HasPlace self.now place result n }
        ensures bound { result ≤ 255000000 }
    {
        self.arena.places[place as usize].cost
    }
}

impl<R: Drop, N: Drop> Tree<R, N> {
    /// A tree of one leaf.
    pub fn new(alloc: Global, root: Shared<N>) -> Result<Tree<R, N>, NoMemory>
        ensures { IfOk result (λ t. t ≡ Leaf 0 root) }
    {
        let arena = Arena::new(alloc, root)?;
        Ok(Tree { arena, deepest: 0 })
    }
}

impl<R: Copied + Drop, N: Drop> Tree<R, N> {
    /// Puts the moves of a live leaf at it.
    pub fn graft(
        &mut self,
        alloc: Global,
        leaf: u32,
        moves: &Moves<R, N>,
    ) -> Result<Grafted, NoMemory>
        requires live { IsLive self.old leaf }
        requires few { size (graft leaf (new_alts (size self.old) moves.now) self.old) ≤ 1000000 }
        ensures grown { OnOk result (self.new ≡ graft leaf (new_alts (size self.old) moves.now) self.old) }
        ensures same { OnErr result (self.new ≡ self.old) }
        ensures killed { IfOk result (λ g. AreKilled leaf self.old self.new g.killed) }
        ensures mark { IfOk result (λ g. g.mark ≡ status self.new) }
    {
        let alts = moves.alts();
        let below = self.arena.level_below(leaf, alts);
        let killed = self.arena.graft(alloc, leaf, alts)?;
        self.deepest = self.deepest.max(below);
        let mark = self.arena.marks.statuses[0];
        Ok(Grafted {
            killed: List::from_vec(killed),
            mark,
        })
    }

    /// The derivation of a solved root, by the first alternatives whose premises are all solved.
    pub fn chosen(&self, alloc: Global) -> Result<Option<Solved<R, N>>, NoMemory>
        ensures derivation { IfOk result (λ d. option_map plain_derivation d ≡ chosen_derivation self.now) }
        ensures solved { IfOk result (λ d. IsSome d ↔ (status self.now ≡ is_solved)) }
    {
        let Mark::Solved = self.arena.marks.statuses[0] else {
            return Ok(None);
        };
        let order = self.arena.taken_ways(alloc)?;
        self.arena.rebuilt(alloc, order)
    }
}
