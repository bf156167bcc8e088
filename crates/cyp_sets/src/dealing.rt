ghost use Rattle.std.specs.Prelude.{◌≡◌, ◌≢◌, [], ◌+◌, ◌^◌, ◌<◌, ◌≤◌, ◌↔◌, IfOk, IsTrue, length, slice_index_or, slice_set};
ghost use Rattle.std.specs.List.{All};
ghost use Rattle.cyp_sets.specs.Dealing.{Deals, DealsFrom, shown_in, ways_to_show};

use crate::masks::Want;
use crate::region_lists::{is_shown_in, regions_hiding, regions_showing};
use cyp_term::{List, NoMemory};
use std::alloc::Global;

/// Whether the class at the place shows what is wanted with some region of its list.
fn is_shown_at(want: Want, lists: &[List<u16>], place: usize) -> bool
    requires few { length lists.now ≤ 6 }
    requires place { place < length lists.now }
    ensures { result ≡ shown_in (slice_index_or lists.now place []) (2 ^ place) want }
{
    is_shown_in(want, lists[place].as_slice(), 1 << place)
}

/// In how many classes some region of the list shows what is wanted.
fn ways_to_show(want: Want, lists: &[List<u16>]) -> usize
    requires { length lists.now ≤ 6 }
    ensures { result ≡ ways_to_show want lists.now }
{
    (0..lists.len())
        .filter(|place| is_shown_at(want, lists, *place))
        .count()
}

/// The place of a want that the fewest classes can show.
fn hardest(wants: &[Want], lists: &[List<u16>]) -> usize
    requires few { length lists.now ≤ 6 }
    requires some { 0 < length wants.now }
    ensures { result < length wants.now }
{
    let mut best = 0;
    let mut fewest = ways_to_show(wants[0], lists);
    for place in 1..wants.len() {
        let ways = ways_to_show(wants[place], lists);
        if ways < fewest {
            best = place;
            fewest = ways;
        }
    }
    best
}

/// As `deal`, with these regions for the class at the place.
#[cycle(deal)]
fn deal_with(
    alloc: Global,
    place: usize,
    regions: List<u16>,
    wants: &[Want],
    lists: &mut List<List<u16>>,
) -> Result<bool, NoMemory>
    requires few { length lists.old ≤ 6 }
    requires place { place < length lists.old }
    requires listed { All (λ rs. rs ≢ []) lists.old }
    ensures same { lists.new ≡ lists.old }
    ensures deals { IfOk result (λ b. IsTrue b ↔ Deals wants.now (slice_set lists.old place regions)) }
{
    if regions.len() == 0 {
        return Ok(false);
    }
    let all = lists.set(place, regions);
    let dealt = deal(alloc, wants, lists);
    let _regions = lists.set(place, all);
    dealt
}

/// As `deal_from` at the next place, with these regions for the class at the place.
#[cycle(deal)]
fn deal_past(
    alloc: Global,
    place: usize,
    regions: List<u16>,
    want: Want,
    rest: &[Want],
    lists: &mut List<List<u16>>,
) -> Result<bool, NoMemory>
    requires few { length lists.old ≤ 6 }
    requires place { place < length lists.old }
    requires listed { All (λ rs. rs ≢ []) lists.old }
    ensures same { lists.new ≡ lists.old }
    ensures deals { IfOk result (λ b. IsTrue b ↔ DealsFrom (place + 1) want rest.now (slice_set lists.old place regions)) }
{
    if regions.len() == 0 {
        return Ok(false);
    }
    let all = lists.set(place, regions);
    let dealt = deal_from(alloc, place + 1, want, rest, lists);
    let _regions = lists.set(place, all);
    dealt
}

/// Whether regions from the lists show all that is wanted, one of the wants by a class from the place on. The class at the
/// place shows it, or else it has only regions that don't.
#[cycle(deal)]
fn deal_from(
    alloc: Global,
    place: usize,
    want: Want,
    rest: &[Want],
    lists: &mut List<List<u16>>,
) -> Result<bool, NoMemory>
    requires few { length lists.old ≤ 6 }
    requires place { place ≤ length lists.old }
    requires listed { All (λ rs. rs ≢ []) lists.old }
    ensures same { lists.new ≡ lists.old }
    ensures deals { IfOk result (λ b. IsTrue b ↔ DealsFrom place want rest.now lists.old) }
{
    if place == lists.len() {
        return Ok(false);
    }
    let regions = lists.as_slice()[place].as_slice();
    let shown = regions_showing(alloc, want, regions, 1 << place)?;
    let others = regions_hiding(alloc, want, regions, 1 << place)?;
    if deal_with(alloc, place, shown, rest, lists)? {
        return Ok(true);
    }
    deal_past(alloc, place, others, want, rest, lists)
}

/// Whether regions from the lists, one for each class, show all that is wanted.
#[cycle(deal)]
pub(crate) fn deal(
    alloc: Global,
    wants: &[Want],
    lists: &mut List<List<u16>>,
) -> Result<bool, NoMemory>
    requires few { length lists.old ≤ 6 }
    requires listed { All (λ rs. rs ≢ []) lists.old }
    ensures same { lists.new ≡ lists.old }
    ensures deals { IfOk result (λ b. IsTrue b ↔ Deals wants.now lists.old) }
{
    if wants.is_empty() {
        return Ok(true);
    }
    let place = hardest(wants, lists.as_slice());
    if ways_to_show(wants[place], lists.as_slice()) == 0 {
        return Ok(false);
    }
    let mut rest = Vec::from_slice(alloc, wants)?;
    let want = rest.remove(place);
    deal_from(alloc, 0, want, rest.as_slice(), lists)
}
