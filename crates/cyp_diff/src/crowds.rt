//! Places of which no two may have the same integer, in a range that has too few.

ghost use Rattle.std.specs.Prelude.{◌≡◌, ◌⊎◌, ℕ, ℤ, pos, ◌<◌, ◌≤◌, ◌<ℤ◌, ◌≤ℤ◌, IfSome, IsTrue, length, slice_index_or, false};
ghost use Rattle.std.specs.List.{All};
ghost use Rattle.cyp_diff.specs.Crowds.{AreDifferent, AreNear, AreUnmet, IsCrowd, IsNear};
ghost use Rattle.cyp_diff.specs.Distances.{Meets, none};
ghost use Rattle.cyp_diff.specs.Gaps.{Apart, IsGap};

use crate::bounds::{Bounds, WIDTH};
use crate::gaps::Gap;

/// The place that the gap keeps different from place `m`.
fn partner(gap: Gap, m: u8) -> Option<u8>
    requires { IsGap 40 gap }
    ensures within { IfSome result (λ v. v < 40) }
    ensures different { IfSome result (λ v. (x : ℕ → ℤ) → Apart x gap → x m ≡ x v → ⊥) }
{
    if gap.c != 0 {
        None
    } else if gap.i == m {
        Some(gap.j)
    } else if gap.j == m {
        Some(gap.i)
    } else {
        None
    }
}

/// Places that the gaps keep different from place `m`.
fn partners(gaps: &[Gap], m: u8) -> [bool; WIDTH]
    requires { All (IsGap 40) gaps.now }
    ensures { (v : ℕ) → IsTrue (slice_index_or result v false) → AreDifferent gaps.now m v }
{
    let mut out = [false; WIDTH];
    for k in 0..gaps.len() {
        if let Some(v) = partner(gaps[k], m) {
            out[v as usize] = true;
        }
    }
    out
}

fn is_apart(different: bool, there: i64, back: i64) -> bool
    ensures { IsTrue result → IsTrue different ⊎ (there <ℤ pos 0) ⊎ (back <ℤ pos 0) }
{
    different || there < 0 || back < 0
}

fn is_near(bounds: &Bounds, different: bool, u: u8, v: u8, most: i64) -> bool
    requires first { u < length bounds.now }
    requires second { v < length bounds.now }
    requires most { most <ℤ none }
    ensures { IsTrue result → (x : ℕ → ℤ) → Meets x bounds.now → (IsTrue different → x u ≡ x v → ⊥) → IsNear x most u v }
{
    let there = bounds.distance(u, v);
    let back = bounds.distance(v, u);
    there.max(back) <= most && is_apart(different, there, back)
}

/// Those of the places that are near place `m` too.
fn nearer(kept: &[bool; WIDTH], bounds: &Bounds, gaps: &[Gap], m: u8, most: i64) -> [bool; WIDTH]
    requires place { m < length bounds.now }
    requires gaps { All (IsGap 40) gaps.now }
    requires most { most <ℤ none }
    ensures old { (v : ℕ) → IsTrue (slice_index_or result v false) → IsTrue (slice_index_or kept.now v false) }
    ensures near { (v : ℕ) → IsTrue (slice_index_or result v false) → AreNear bounds.now gaps.now most m v }
{
    let different = partners(gaps, m);
    let mut out = [false; WIDTH];
    for v in 0..bounds.places() {
        let k = v as usize;
        out[k] = kept[k] && is_near(bounds, different[k], m, v, most);
    }
    out
}

/// How many places there are, found one after the other, that are near place `first` and each other, with that place.
fn gathered(bounds: &Bounds, gaps: &[Gap], first: u8, most: i64) -> i64
    requires place { first < length bounds.now }
    requires gaps { All (IsGap 40) gaps.now }
    requires most { most <ℤ none }
    ensures { IsCrowd bounds.now gaps.now most result }
{
    let mut kept = nearer(&[true; WIDTH], bounds, gaps, first, most);
    let mut count = 1;
    for m in 0..bounds.places() {
        if kept[m as usize] {
            kept = nearer(&kept, bounds, gaps, m, most);
            count += 1;
        }
    }
    count
}

/// Whether more places than a range has integers are in it and pairwise different. The range is as wide as the ends of the gap
/// may be apart.
pub(crate) fn is_crowded(bounds: &Bounds, gaps: &[Gap], gap: Gap) -> bool
    requires gap { IsGap (length bounds.now) gap }
    requires gaps { All (IsGap (length bounds.now)) gaps.now }
    ensures { IsTrue result → AreUnmet bounds.now gaps.now }
{
    let most = bounds
        .distance(gap.i, gap.j)
        .max(bounds.distance(gap.j, gap.i));
    if gap.c != 0 || most < 0 || most + 1 >= bounds.places() as i64 {
        return false;
    }
    gathered(bounds, gaps, gap.i, most) > most + 1
}
