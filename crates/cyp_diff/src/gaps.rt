ghost use Rattle.std.specs.Prelude.{◌≡◌, ◌<◌, ◌↔◌, pos, ◌+ℤ◌, ◌-ℤ◌, IfOk, IsFalse, IsTrue, MatchOption, length};
ghost use Rattle.std.specs.List.{All};
ghost use Rattle.cyp_diff.specs.Distances.{IsSmall};
ghost use Rattle.cyp_diff.specs.Gaps.{Apart, IsGap, SeparateMeans, SideMeans};
ghost use Rattle.cyp_diff.specs.Solution.{IsLow, at};

use crate::bounds::{Adding, Bounds};
use crate::crowds::is_crowded;
use crate::spreading::spread;
use cyp_term::{Copied, List, NoMemory};
use std::alloc::Global;

/// The integer at place `i`, less that at place `j`, isn't `c`.
#[derive(Clone, Copy, Debug)]
pub(crate) struct Gap {
    pub i: u8,
    pub j: u8,
    pub c: i64,
}

impl Copied for Gap {
    fn copy(&self, _alloc: Global) -> Result<Gap, NoMemory> {
        Ok(*self)
    }
}

fn is_broken(xs: &[i64], gap: Gap) -> bool
    requires gap { IsGap (length xs.now) gap }
    requires low { All IsLow xs.now }
    ensures { IsTrue result ↔ (at xs.now gap.i ≡ (at xs.now gap.j +ℤ gap.c)) }
{
    xs[gap.i as usize] - xs[gap.j as usize] == gap.c
}

fn broken(xs: &[i64], gaps: &[Gap]) -> Option<usize>
    requires gaps { All (IsGap (length xs.now)) gaps.now }
    requires low { All IsLow xs.now }
    ensures { MatchOption result (All (Apart (at xs.now)) gaps.now) (λ k. k < length gaps.now) }
{
    for k in 0..gaps.len() {
        if is_broken(xs, gaps[k]) {
            return Some(k);
        }
    }
    None
}

/// Whether one of the gaps is broken.
pub(crate) fn is_some_broken(xs: &[i64], gaps: &[Gap]) -> bool
    requires gaps { All (IsGap (length xs.now)) gaps.now }
    requires low { All IsLow xs.now }
    ensures { IsFalse result → All (Apart (at xs.now)) gaps.now }
{
    broken(xs, gaps).is_some()
}

/// How much choice the gap leaves: 0 where one of its orders is out, else how far its difference may vary, and the most where
/// the integers avoid it.
fn choice(bounds: &Bounds, xs: &[i64], gap: Gap) -> i64
    requires gap { IsGap (length bounds.now) gap }
    requires places { length xs.now ≡ length bounds.now }
    requires low { All IsLow xs.now }
{
    let up = bounds.distance(gap.i, gap.j) - gap.c;
    let down = bounds.distance(gap.j, gap.i) + gap.c;
    if up == 0 || down == 0 {
        0
    } else if is_broken(xs, gap) {
        up + down
    } else {
        i64::MAX
    }
}

/// Which gap leaves the least choice. The one at `first` is broken.
fn narrowest(bounds: &Bounds, xs: &[i64], gaps: &[Gap], first: usize) -> usize
    requires gaps { All (IsGap (length bounds.now)) gaps.now }
    requires places { length xs.now ≡ length bounds.now }
    requires low { All IsLow xs.now }
    requires within { first < length gaps.now }
    ensures { result < length gaps.now }
{
    let mut best = first;
    let mut least = choice(bounds, xs, gaps[first]);
    for k in 0..gaps.len() {
        let here = choice(bounds, xs, gaps[k]);
        if here < least {
            best = k;
            least = here;
        }
    }
    best
}

#[cycle(separate)]
fn side(
    alloc: Global,
    mut bounds: Bounds,
    i: u8,
    j: u8,
    c: i64,
    gaps: List<Gap>,
) -> Result<Option<List<i64>>, NoMemory>
    requires first { i < length bounds }
    requires second { j < length bounds }
    requires small { IsSmall c }
    requires gaps { All (IsGap (length bounds)) gaps }
    ensures { IfOk result (SideMeans bounds i j c gaps) }
{
    match bounds.add(i, j, c) {
        Adding::Added => separate(alloc, bounds, gaps),
        Adding::Contradiction => Ok(None),
    }
}

#[cycle(separate)]
fn first_side(
    alloc: Global,
    bounds: &Bounds,
    gap: Gap,
    gaps: &List<Gap>,
) -> Result<Option<List<i64>>, NoMemory>
    requires gap { IsGap (length bounds.now) gap }
    requires gaps { All (IsGap (length bounds.now)) gaps.now }
    ensures { IfOk result (SideMeans bounds.now gap.i gap.j (gap.c -ℤ pos 1) gaps.now) }
{
    if bounds.refuses(gap.i, gap.j, gap.c - 1) {
        return Ok(None);
    }
    let rest = gaps.copy(alloc)?;
    side(alloc, bounds.copy(alloc)?, gap.i, gap.j, gap.c - 1, rest)
}

/// As `separate`. The two orders of the gap at `k` are tried one after the other.
#[cycle(separate)]
fn split(
    alloc: Global,
    bounds: Bounds,
    mut gaps: List<Gap>,
    k: usize,
) -> Result<Option<List<i64>>, NoMemory>
    requires gaps { All (IsGap (length bounds)) gaps }
    requires within { k < length gaps }
    ensures { IfOk result (SeparateMeans bounds gaps) }
{
    if is_crowded(&bounds, gaps.as_slice(), gaps.as_slice()[k]) {
        return Ok(None);
    }
    let gap = gaps.remove(k);
    match first_side(alloc, &bounds, gap, &gaps)? {
        Some(xs) => Ok(Some(xs)),
        None => side(alloc, bounds, gap.j, gap.i, -1 - gap.c, gaps),
    }
}

/// Integers that meet the bounds and avoid the gaps. The orders of a gap are tried only where the least distances break one, and so do
/// integers that are far apart.
#[cycle(separate)]
pub(crate) fn separate(
    alloc: Global,
    bounds: Bounds,
    gaps: List<Gap>,
) -> Result<Option<List<i64>>, NoMemory>
    requires gaps { All (IsGap (length bounds)) gaps }
    ensures { IfOk result (SeparateMeans bounds gaps) }
{
    let xs = bounds.solution(alloc)?;
    match broken(xs.as_slice(), gaps.as_slice()) {
        None => Ok(Some(xs)),
        Some(first) => {
            if let Some(ys) = spread(alloc, &bounds, xs.as_slice(), gaps.as_slice())? {
                return Ok(Some(ys));
            }
            let k = narrowest(&bounds, xs.as_slice(), gaps.as_slice(), first);
            split(alloc, bounds, gaps, k)
        }
    }
}
