ghost use Rattle.std.specs.Prelude.{◌≡◌, ◌+◌, ◌*◌, ◌++◌, ◌<◌, ◌≤◌, [], ◌∷◌, length, min, slice_set, true, Some, None, IfOk, OnOk, OnErr, IsTrue, vec_len, vec_capacity};
ghost use Rattle.std.specs.List.{slice_get};
ghost use Rattle.cyp_tree.specs.declared.places.Place.{Place};
ghost use Rattle.cyp_space.specs.Alts.{premises_in};
ghost use Rattle.cyp_tree.specs.Enlarged.{with_ways, HaveRoom, AreSame};
ghost use Rattle.cyp_tree.specs.Marked.{reached_at};
ghost use Rattle.cyp_tree.specs.Arenas.{IsArena, IsLeafPlace, AreLeavesOf, ListsLeaf, IsMade, IsMadeFor, HasGrafted, IsRootArena};
ghost use Rattle.cyp_tree.specs.Numbers.{Rises};

use crate::marks::Marks;
use crate::newborn::{fresh_status, new_places, new_ways};
use crate::places::{Place, Run, Way};
use cyp_space::{Alt, count_of_premises};
use cyp_term::{Copied, NoMemory, Shared};
use std::alloc::Global;

/// The lists of an and-or tree, and its root's node once more.
#[derive(Drop)]
pub struct Arena<R, N> {
    pub root: Shared<N>,
    pub places: Vec<Place<N>>,
    pub ways: Vec<Way<R>>,
    pub marks: Marks,
}

/// What a graft takes memory for.
#[derive(Drop)]
struct Made<R, N> {
    ways: Vec<Way<R>>,
    places: Vec<Place<N>>,
    gone: Vec<u32>,
    killed: Vec<u32>,
}

/// The new ways and places of a graft, and two empty lists with room for so many numbers.
fn make<R: Copied + Drop, N: Drop>(
    alloc: Global,
    alts: &[Alt<R, N>],
    leaf: u32,
    first: u32,
    way: u32,
    cost: u32,
    level: u32,
    room: usize,
) -> Result<Made<R, N>, NoMemory>
    requires premises { first + premises_in alts.now < 4294967296 }
    requires ways { way + length alts.now < 4294967296 }
    requires cost { cost ≤ 255000000 }
    requires level { level ≤ 1000000 }
    ensures { IfOk result (λ made. IsMade leaf first way cost level room alts.now made.ways.items made.places.items made.gone made.killed) }
{
    let ways = new_ways(alloc, alts, leaf, first)?;
    let places = new_places(alloc, alts, way, cost, level)?;
    let gone = Vec::with_capacity(alloc, room)?;
    let killed = Vec::with_capacity(alloc, room)?;
    Ok(Made {
        ways,
        places,
        gone,
        killed,
    })
}

/// Adds new ways of a leaf and their premises, where there is room.
pub fn enlarge<R: Drop, N: Drop>(
    places: &mut Vec<Place<N>>,
    ways: &mut Vec<Way<R>>,
    leaf: u32,
    mut new_ways: Vec<Way<R>>,
    mut new_places: Vec<Place<N>>,
)
    requires below { leaf < length places.old.items }
    requires room { vec_len places.old + length new_places.items ≤ vec_capacity places.old }
    requires room_ways { vec_len ways.old + length new_ways.items ≤ vec_capacity ways.old }
    requires few { length ways.old.items < 4294967296 }
    requires few_new { length new_ways.items < 4294967296 }
    ensures places { (p : Place N) → slice_get places.old.items leaf ≡ Some p → places.new.items ≡ slice_set places.old.items leaf (with_ways p (length ways.old.items) (length new_ways.items)) ++ new_places.items }
    ensures ways { ways.new.items ≡ ways.old.items ++ new_ways.items }
{
    let run = Run {
        first: ways.len() as u32,
        count: new_ways.len() as u32,
    };
    places[leaf as usize].ways = Some(run);
    places.append(&mut new_places).unwrap();
    ways.append(&mut new_ways).unwrap();
}

/// Lists a number, where there is room.
fn push_number(numbers: &mut Vec<u32>, number: u32)
    requires room { length numbers.old.items < vec_capacity numbers.old }
    ensures items { numbers.new.items ≡ numbers.old.items ++ number ∷ [] }
    ensures capacity { vec_capacity numbers.old ≤ vec_capacity numbers.new }
{
    numbers.push(number).unwrap();
}

/// Lists a number, if it is below this one and that of a leaf.
fn list_leaf<N>(places: &[Place<N>], first: u32, at: u32, killed: &mut Vec<u32>)
    requires below { first ≤ length places.now }
    requires room { length killed.old.items < vec_capacity killed.old }
    ensures leaf { ListsLeaf first places.now at killed.old.items killed.new.items }
    ensures capacity { vec_capacity killed.old ≤ vec_capacity killed.new }
{
    if at >= first {
        return;
    }
    if let Some(_run) = places[at as usize].ways {
        return;
    }
    push_number(killed, at);
}

/// Lists the leaves below this number that are listed here.
pub fn list_leaves<N>(places: &[Place<N>], first: u32, gone: &[u32], killed: &mut Vec<u32>)
    requires below { first ≤ length places.now }
    requires empty { killed.old.items ≡ [] }
    requires room { length gone.now ≤ vec_capacity killed.old }
    ensures { AreLeavesOf first places.now gone.now killed.new.items }
{
    for at in gone {
        list_leaf(places, first, *at, killed);
    }
}

impl<R: Drop, N: Drop> Arena<R, N> {
    /// A root that is a leaf.
    pub fn new(alloc: Global, root: Shared<N>) -> Result<Arena<R, N>, NoMemory>
        ensures { IfOk result (λ a. IsRootArena root a.root a.places.items a.ways.items a.marks) }
    {
        let marks = Marks::of_root(alloc)?;
        let mut places = Vec::new(alloc);
        places.push(Place {
            node: root.copy(alloc)?,
            above: 0,
            cost: 0,
            level: 0,
            ways: None,
        })?;
        Ok(Arena {
            root,
            places,
            ways: Vec::new(alloc),
            marks,
        })
    }

    /// Makes room for more places and ways, and for their marks.
    fn reserve(&mut self, places: usize, ways: usize) -> Result<(), NoMemory>
        ensures places { self.new.places.items ≡ self.old.places.items }
        ensures ways { self.new.ways.items ≡ self.old.ways.items }
        ensures marks { AreSame self.old.marks self.new.marks }
        ensures root { self.new.root ≡ self.old.root }
        ensures room { OnOk result (vec_len self.new.places + places ≤ vec_capacity self.new.places) }
        ensures room_ways { OnOk result (vec_len self.new.ways + ways ≤ vec_capacity self.new.ways) }
        ensures room_marks { OnOk result (HaveRoom self.new.marks places ways) }
    {
        self.places.reserve(places)?;
        self.ways.reserve(ways)?;
        self.marks.reserve(places, ways)
    }

    /// Puts what was made at a leaf that is reached, and lists the leaves that aren't live any more.
    fn put(&mut self, leaf: u32, alts: &[Alt<R, N>], made: Made<R, N>) -> Vec<u32>
        requires arena { IsArena self.old.places.items self.old.ways.items self.old.marks }
        requires live { reached_at self.old.marks leaf ≡ true }
        requires leaf { IsLeafPlace self.old.places.items leaf }
        requires few { length self.old.places.items + premises_in alts.now ≤ 1000000 }
        requires alts { length alts.now ≤ 48 }
        requires made { IsMadeFor self.old.places.items self.old.ways.items leaf alts.now made.ways.items made.places.items made.gone made.killed }
        requires room { vec_len self.old.places + premises_in alts.now ≤ vec_capacity self.old.places }
        requires room_ways { vec_len self.old.ways + length alts.now ≤ vec_capacity self.old.ways }
        requires room_marks { HaveRoom self.old.marks (premises_in alts.now) (length alts.now) }
        ensures grafted { HasGrafted leaf alts.now self.old.places.items self.old.ways.items self.old.marks self.new.places.items self.new.ways.items self.new.marks result.items }
        ensures root { self.new.root ≡ self.old.root }
    {
        let first = self.places.len() as u32;
        let count = count_of_premises(alts);
        let status = fresh_status(alts);
        let Made {
            ways,
            places,
            mut gone,
            mut killed,
        } = made;
        enlarge(&mut self.places, &mut self.ways, leaf, ways, places);
        self.marks.bear(leaf, alts, count);
        self.marks.settle(
            self.places.as_slice(),
            self.ways.as_slice(),
            leaf,
            status,
            &mut gone,
        );
        list_leaves(self.places.as_slice(), first, gone.as_slice(), &mut killed);
        killed
    }
}

impl<R: Copied + Drop, N: Drop> Arena<R, N> {
    /// Puts alternatives at a leaf that is reached, and lists the leaves that aren't live any more.
    /// Where memory runs out, nothing has changed.
    pub fn graft(
        &mut self,
        alloc: Global,
        leaf: u32,
        alts: &[Alt<R, N>],
    ) -> Result<Vec<u32>, NoMemory>
        requires arena { IsArena self.old.places.items self.old.ways.items self.old.marks }
        requires live { reached_at self.old.marks leaf ≡ true }
        requires leaf { IsLeafPlace self.old.places.items leaf }
        requires few { length self.old.places.items + premises_in alts.now ≤ 1000000 }
        requires alts { length alts.now ≤ 48 }
        ensures grafted { IfOk result (λ killed. HasGrafted leaf alts.now self.old.places.items self.old.ways.items self.old.marks self.new.places.items self.new.ways.items self.new.marks killed.items) }
        ensures rise { IfOk result (λ killed. Rises killed.items) }
        ensures root { self.new.root ≡ self.old.root }
        ensures places { OnErr result (self.new.places.items ≡ self.old.places.items) }
        ensures ways { OnErr result (self.new.ways.items ≡ self.old.ways.items) }
        ensures marks { OnErr result (AreSame self.old.marks self.new.marks) }
    {
        let first = self.places.len() as u32;
        let count = count_of_premises(alts);
        let way = self.ways.len() as u32;
        let cost = self.places[leaf as usize].cost;
        let level = self.places[leaf as usize].level;
        let room = (first + count) as usize;
        let made = make(alloc, alts, leaf, first, way, cost, level, room)?;
        self.reserve(count as usize, alts.len())?;
        let mut killed = self.put(leaf, alts, made);
        killed.sort_unstable();
        Ok(killed)
    }
}

impl<R, N> Arena<R, N> {
    /// Whether the number is that of a leaf that is reached.
    pub fn alive(&self, leaf: u32) -> bool
        requires { IsArena self.now.places.items self.now.ways.items self.now.marks }
        ensures yes { IsTrue result → (reached_at self.now.marks leaf ≡ true) × IsLeafPlace self.now.places.items leaf }
        ensures itself { reached_at self.now.marks leaf ≡ true → IsLeafPlace self.now.places.items leaf → IsTrue result }
    {
        if leaf as usize >= self.places.len() {
            return false;
        }
        if let Some(_run) = self.places[leaf as usize].ways {
            return false;
        }
        self.marks.reached[leaf as usize]
    }

    /// The level of the premises that alternatives put at a leaf have, or that of the leaf where they
    /// have none.
    pub fn level_below(&self, leaf: u32, alts: &[Alt<R, N>]) -> u32
        requires arena { IsArena self.now.places.items self.now.ways.items self.now.marks }
        requires leaf { IsLeafPlace self.now.places.items leaf }
        requires alts { length alts.now ≤ 48 }
        ensures { (p : Place N) → slice_get self.now.places.items leaf ≡ Some p → result ≡ p.level + min 1 (premises_in alts.now) }
    {
        self.places[leaf as usize].level + count_of_premises(alts).min(1)
    }
}
