ghost use Rattle.std.specs.Prelude.{◌≡◌, [], ◌∷◌, ◌++◌, ◌^◌, ◌-◌, min, true, false, None, Some, OnOk, OnErr};
ghost use Rattle.std.specs.Option.{option_copied};
ghost use Rattle.std.specs.Map.{set_value};
ghost use Rattle.cyp_memo.specs.Places.{has_place, moves_at, with_place, held_in};

use cyp_space::{Moves, count_of_premises};
use cyp_term::{Exact, NoMemory, Shared};
use indexmap::IndexMap;
use std::alloc::Global;
use std::hash::Hash;
use std::marker::Model;

/// The moves of nodes, by node. A place for a node is made before its moves are there, and a node
/// is in the memo once they are.
#[derive(Drop)]
pub struct Memo<R, N: Hash + Exact> {
    places: IndexMap<Shared<N>, Option<Moves<R, N>>>,
    held: u64,
}

impl<R, N: Hash + Exact> Model for Memo<R, N> {
    ghost use Rattle.std.specs.Prelude.{◌≡◌, ◌^◌, ◌-◌, min};
    ghost use Rattle.std.specs.Coded.{coded×, coded_list, coded_option};
    ghost use Rattle.cyp_space.specs.Alts.{alt_code};
    ghost use Rattle.cyp_memo.specs.Places.{Places, held_in};

    ghost Value = { Places R N };

    ghost coded = { coded_list (coded× N.code (coded_option (coded_list (alt_code R.code N.code)))) };

    ghost view = { λ m. m.places.entries };

    ghost invariant = { λ m. m.held ≡ min (held_in m.places.entries) (2 ^ 64 - 1) };
}

/// Makes a place without moves behind the others, for a node that has none.
fn add_place<R: Drop, N: Hash + Exact + Drop>(
    places: &mut IndexMap<Shared<N>, Option<Moves<R, N>>>,
    node: Shared<N>,
) -> Result<(), NoMemory>
    requires { has_place N.eq places.old.entries node ≡ false }
    ensures placed { OnOk result (places.new.entries ≡ places.old.entries ++ (node, None) ∷ []) }
    ensures same { OnErr result (places.new.entries ≡ places.old.entries) }
{
    places.insert(node, None)?;
    Ok(())
}

/// Gives the place of a node these moves.
fn set_moves<R: Drop, N: Hash + Exact + Drop>(
    places: &mut IndexMap<Shared<N>, Option<Moves<R, N>>>,
    node: &Shared<N>,
    moves: Moves<R, N>,
)
    requires { has_place N.eq places.old.entries node.now ≡ true }
    ensures { places.new.entries ≡ set_value (N.eq node.now) places.old.entries (Some moves) }
{
    if let Some(place) = places.get_mut(node) {
        *place = Some(moves);
    }
}

impl<R: Drop, N: Hash + Exact + Drop> Memo<R, N> {
    /// No node has a place.
    pub fn new(alloc: Global) -> Memo<R, N>
        ensures { result ≡ [] }
    {
        Memo {
            places: IndexMap::new(alloc),
            held: 0,
        }
    }

    /// The moves of a node that is in the memo.
    pub fn look(&self, node: &Shared<N>) -> Option<&Moves<R, N>>
        ensures { option_copied result ≡ moves_at N.eq self.now node.now }
    {
        match self.places.get(node) {
            Some(Some(moves)) => Some(moves),
            _ => None,
        }
    }

    /// Makes a place without moves for a node that has none. No node gets into the memo by that.
    pub fn place(&mut self, node: Shared<N>) -> Result<(), NoMemory>
        ensures placed { OnOk result (self.new ≡ with_place N.eq self.old node) }
        ensures same { OnErr result (self.new ≡ self.old) }
    {
        if !self.places.contains_key(&node) {
            add_place(&mut self.places, node)?;
        }
        Ok(())
    }

    /// Gives the place of a node that isn't in the memo its moves.
    pub fn insert(&mut self, node: &Shared<N>, moves: Moves<R, N>)
        requires place { has_place N.eq self.old node.now ≡ true }
        requires fresh { moves_at N.eq self.old node.now ≡ None }
        ensures { self.new ≡ set_value (N.eq node.now) self.old (Some moves) }
    {
        let premises = u64::from(count_of_premises(moves.alts()));
        set_moves(&mut self.places, node, moves);
        self.held = self.held.saturating_add(premises);
    }

    /// The number of premises of all moves in the memo, or 2^64 - 1 where there are more.
    pub fn held(&self) -> u64
        ensures { result ≡ min (held_in self.now) (2 ^ 64 - 1) }
    {
        self.held
    }
}
