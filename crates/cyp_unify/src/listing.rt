//! The matches of a companion: one pairing after another, in lexicographic order.

ghost use Rattle.std.specs.Prelude.{◌≡◌, [], ◌≤◌, ◌<◌, IfOk, IsTrue, OnOk, Some, length, option_map, slice_get};
ghost use Rattle.std.specs.List.{list_all};
ghost use Rattle.std.specs.Option.{option_to_list};
ghost use Rattle.cyp_unify.specs.Listing.{matches_by, matches_from, matches_in, with_more};
ghost use Rattle.cyp_unify.specs.Matches.{matches as the_matches};
ghost use Rattle.cyp_unify.specs.Meeting.{has_card, match_in};

use crate::found::Match;
use crate::pairing::{match_in, may_pair};
use cyp_heap::{Chunk, Link, Node};
use cyp_term::{List, NoMemory};
use std::alloc::Global;

/// The most matches that are listed.
const MOST_MATCHES: usize = 64;

/// The matches found so far, and the places of the present chunks that the first of the companion's
/// chunks are paired with.
#[derive(Drop)]
struct Listing {
    chosen: List<u8>,
    found: List<Match>,
}

impl Listing {
    fn new(alloc: Global) -> Listing
        ensures { result ≡ record { chosen = []; found = [] } }
    {
        Listing {
            chosen: List::from_vec(Vec::new(alloc)),
            found: List::from_vec(Vec::new(alloc)),
        }
    }

    /// Adds the match of the pairing that is chosen, if there is one.
    fn add(&mut self, alloc: Global, present: &[Chunk], link: &Link) -> Result<(), NoMemory>
        requires from { IsTrue (list_all has_card link.now.goal.pre.chunks) }
        requires to { IsTrue (list_all has_card present.now) }
        requires room { length self.old.found < 64 }
        ensures { OnOk result (self.new ≡ with_more self.old (option_to_list (match_in present.now link.now self.old.chosen))) }
    {
        match match_in(alloc, present, link, self.chosen.as_slice())? {
            Some(found) => self.found.push(alloc, found),
            None => Ok(()),
        }
    }

    /// Adds the matches where the next chunk is paired with the present chunk at this place, and the
    /// rest with any.
    #[cycle(extend)]
    fn extend_by(
        &mut self,
        alloc: Global,
        present: &[Chunk],
        link: &Link,
        chunk: &Chunk,
        place: u8,
        rest: &[Chunk],
    ) -> Result<(), NoMemory>
        requires from { IsTrue (list_all has_card link.now.goal.pre.chunks) }
        requires to { IsTrue (list_all has_card present.now) }
        requires few { length present.now ≤ 256 }
        requires room { length self.old.found ≤ 64 }
        ensures { OnOk result (self.new ≡ with_more self.old (matches_by present.now link.now self.old.chosen chunk.now rest.now place)) }
    {
        if self.found.len() == MOST_MATCHES {
            return Ok(());
        }
        if !may_pair(present, chunk, place, self.chosen.as_slice()) {
            return Ok(());
        }
        self.chosen.push(alloc, place)?;
        self.extend(alloc, present, link, rest)?;
        self.chosen.pop();
        Ok(())
    }

    /// Adds the matches of the pairings that begin with the places chosen, up to the most that are
    /// listed. These chunks are still to be paired.
    #[cycle(extend)]
    fn extend(
        &mut self,
        alloc: Global,
        present: &[Chunk],
        link: &Link,
        wanted: &[Chunk],
    ) -> Result<(), NoMemory>
        requires from { IsTrue (list_all has_card link.now.goal.pre.chunks) }
        requires to { IsTrue (list_all has_card present.now) }
        requires few { length present.now ≤ 256 }
        requires room { length self.old.found < 64 }
        ensures { OnOk result (self.new ≡ with_more self.old (matches_from present.now link.now self.old.chosen wanted.now)) }
    {
        if wanted.is_empty() {
            return self.add(alloc, present, link);
        }
        for place in 0..present.len() {
            self.extend_by(alloc, present, link, &wanted[0], place as u8, &wanted[1..])?;
        }
        Ok(())
    }
}

/// The first matches of a companion with these present chunks.
fn matches_in(alloc: Global, present: &[Chunk], link: &Link) -> Result<List<Match>, NoMemory>
    requires from { IsTrue (list_all has_card link.now.goal.pre.chunks) }
    requires to { IsTrue (list_all has_card present.now) }
    requires few { length present.now ≤ 256 }
    ensures { IfOk result (λ ms. ms ≡ matches_in present.now link.now) }
{
    let mut listing = Listing::new(alloc);
    listing.extend(alloc, present, link, link.goal.get().pre.chunks())?;
    Ok(listing.found)
}

/// The matches of the companion at this place: the first 64, in lexicographic order of the places
/// that its chunks are paired with.
pub fn matches(alloc: Global, node: &Node, link: u8) -> Result<List<Match>, NoMemory>
    requires { link < length node.now.links }
    ensures { IfOk result (λ ms. option_map (λ l. the_matches node.now l) (slice_get node.now.links link) ≡ Some ms) }
{
    let link = &node.links().as_slice()[link as usize];
    matches_in(alloc, node.goal().pre.chunks(), link)
}
