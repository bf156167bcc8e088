//! The match of one pairing of a companion's chunks with present ones.

ghost use Rattle.std.specs.Prelude.{◌≡◌, ◌<◌, IfOk, IsTrue, Some, is_some, length, option_map, slice_get};
ghost use Rattle.std.specs.List.{list_all};
ghost use Rattle.cyp_heap.specs.Formed.{insts_fit};
ghost use Rattle.cyp_unify.specs.Matches.{match_at, pair_positions};
ghost use Rattle.cyp_unify.specs.Meeting.{has_card, match_in, may_pair};

use crate::found::Match;
use crate::frames::are_alike;
use crate::meets::walk_through;
use cyp_heap::{Chunk, Link, Node};
use cyp_term::{Fail, NoMemory, TooWide};
use std::alloc::Global;

/// Whether the chunk may be paired with the present chunk at this place, which is none of the later
/// places.
pub(crate) fn may_pair(present: &[Chunk], chunk: &Chunk, place: u8, later: &[u8]) -> bool
    ensures { result ≡ may_pair present.now chunk.now place later.now }
{
    match present.get(usize::from(place)) {
        Some(other) => are_alike(chunk, other) && !later.contains(&place),
        None => false,
    }
}

/// Whether these places give each chunk a different present chunk that is alike.
fn is_pairing(present: &[Chunk], wanted: &[Chunk], places: &[u8]) -> bool
    ensures { result ≡ is_some (pair_positions present.now wanted.now places.now) }
{
    if wanted.len() != places.len() {
        return false;
    }
    for k in 0..places.len() {
        if !may_pair(present, &wanted[k], places[k], &places[k + 1..]) {
            return false;
        }
    }
    true
}

/// The match of a companion with these present chunks by this pairing.
pub(crate) fn match_in(
    alloc: Global,
    present: &[Chunk],
    link: &Link,
    places: &[u8],
) -> Result<Option<Match>, NoMemory>
    requires from { IsTrue (list_all has_card link.now.goal.pre.chunks) }
    requires to { IsTrue (list_all has_card present.now) }
    ensures { IfOk result (λ m. m ≡ match_in present.now link.now places.now) }
{
    let goal = link.goal.get();
    let wanted = goal.pre.chunks();
    if !is_pairing(present, wanted, places) {
        return Ok(None);
    }
    match walk_through(alloc, goal.exist.as_slice(), present, wanted, places) {
        Ok(found) => found.finish(alloc, link, places),
        Err(Fail::Named(TooWide)) => Ok(None),
        Err(Fail::NoMemory) => Err(NoMemory),
    }
}

/// The match of the companion at this place by this pairing: the present chunk of each of the
/// companion's chunks, by its place. There is none where the places don't pair the chunks, where a
/// variable of the companion gets no value, and where an offset passes 2^32 in size.
pub fn match_at(
    alloc: Global,
    node: &Node,
    link: u8,
    pairs: &[u8],
) -> Result<Option<Match>, NoMemory>
    requires { link < length node.now.links }
    ensures { IfOk result (λ m. option_map (λ l. match_at node.now l pairs.now) (slice_get node.now.links link) ≡ Some m) }
{
    let link = &node.links().as_slice()[link as usize];
    match_in(alloc, node.goal().pre.chunks(), link, pairs)
}
