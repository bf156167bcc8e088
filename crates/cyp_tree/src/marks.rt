ghost use Rattle.std.specs.Prelude.{◌≡◌, [], ◌∷◌, ◌++◌, ◌<◌, ◌≤◌, length, slice_set, slice_index_or, true, false, vec_len, vec_capacity};
ghost use Rattle.cyp_tree.specs.declared.mark.Mark.TheVariants.{Undecided, Solved, Failed};
ghost use Rattle.cyp_tree.specs.Standing.{IsLinked, IsUp};
ghost use Rattle.cyp_tree.specs.Told.{IsToldBut, AreCounted};
ghost use Rattle.cyp_tree.specs.Marked.{status_at, unsolved_at, unfailed_at, AreSized, IsOpenAbove, DecidesNode};

use crate::mark::Mark;
use crate::places::{Place, Way};

/// What is known of the nodes and ways of an arena, by their numbers: whether a node is open, and
/// reached, that is under open nodes alone by ways that have not failed; how many ways of a node
/// have not failed, and how many premises of a way are not solved.
#[derive(Drop)]
pub struct Marks {
    pub statuses: Vec<Mark>,
    pub reached: Vec<bool>,
    pub unfailed: Vec<u32>,
    pub unsolved: Vec<u32>,
}

/// The number of the way that a node is a premise of, and the number of the way's node.
pub fn above_of<R, N>(places: &[Place<N>], ways: &[Way<R>], at: u32) -> (u32, u32)
    requires linked { IsLinked places.now ways.now }
    requires below { at < length places.now }
    requires later { 0 < at }
    ensures { IsUp places.now ways.now at result.0 result.1 }
{
    let way = places[at as usize].above;
    (way, ways[way as usize].above)
}

impl Marks {
    /// Takes a node from those that are reached, and lists it, where there is room in the list.
    pub fn retire(&mut self, at: u32, gone: &mut Vec<u32>)
        requires reached { slice_index_or self.old.reached.items at false ≡ true }
        requires room { vec_len gone.old < vec_capacity gone.old }
        ensures reached { self.new.reached.items ≡ slice_set self.old.reached.items at false }
        ensures statuses { self.new.statuses ≡ self.old.statuses }
        ensures unfailed { self.new.unfailed ≡ self.old.unfailed }
        ensures unsolved { self.new.unsolved ≡ self.old.unsolved }
        ensures gone { gone.new.items ≡ gone.old.items ++ at ∷ [] }
        ensures capacity { vec_capacity gone.old ≤ vec_capacity gone.new }
    {
        self.reached[at as usize] = false;
        gone.push(at).unwrap();
    }

    /// Notes that an open node is solved. If its way is solved now, the node of that way is to be
    /// noted next: its number is the answer.
    pub fn solve<R, N>(&mut self, places: &[Place<N>], ways: &[Way<R>], at: u32) -> Option<u32>
        requires linked { IsLinked places.now ways.now }
        requires sized { AreSized self.old (length places.now) (length ways.now) }
        requires below { at < length places.now }
        requires told { IsToldBut at Solved (status_at self.old) places.now ways.now }
        requires counted { AreCounted (status_at self.old) (unsolved_at self.old) (unfailed_at self.old) places.now ways.now }
        requires undecided { status_at self.old at ≡ Undecided }
        requires above { IsOpenAbove (status_at self.old) places.now ways.now at }
        ensures { DecidesNode Solved at places.now ways.now self.old self.new result }
    {
        self.statuses[at as usize] = Mark::Solved;
        if at == 0 {
            return None;
        }
        let (way, node) = above_of(places, ways, at);
        let left = self.unsolved[way as usize] - 1;
        self.unsolved[way as usize] = left;
        if left > 0 {
            return None;
        }
        Some(node)
    }

    /// Notes that an open node has failed. If its way was the last of its node that had not failed,
    /// that node is to be noted next: its number is the answer.
    pub fn fail<R, N>(&mut self, places: &[Place<N>], ways: &[Way<R>], at: u32) -> Option<u32>
        requires linked { IsLinked places.now ways.now }
        requires sized { AreSized self.old (length places.now) (length ways.now) }
        requires below { at < length places.now }
        requires told { IsToldBut at Failed (status_at self.old) places.now ways.now }
        requires counted { AreCounted (status_at self.old) (unsolved_at self.old) (unfailed_at self.old) places.now ways.now }
        requires undecided { status_at self.old at ≡ Undecided }
        requires above { IsOpenAbove (status_at self.old) places.now ways.now at }
        ensures { DecidesNode Failed at places.now ways.now self.old self.new result }
    {
        self.statuses[at as usize] = Mark::Failed;
        if at == 0 {
            return None;
        }
        let (_way, node) = above_of(places, ways, at);
        let left = self.unfailed[node as usize] - 1;
        self.unfailed[node as usize] = left;
        if left > 0 {
            return None;
        }
        Some(node)
    }
}
