//! Integers that are far apart where the bounds let them be.

ghost use Rattle.std.specs.Prelude.{◌≡◌, ◌<◌, ◌≤ℤ◌, ◌+ℤ◌, ℕ, pos, IfOk, IfSome, IsTrue, length};
ghost use Rattle.std.specs.List.{All};
ghost use Rattle.cyp_diff.specs.Distances.{IsDistance, Meets, Within, distance};
ghost use Rattle.cyp_diff.specs.Gaps.{Apart, IsGap};
ghost use Rattle.cyp_diff.specs.Solution.{IsLow, Solves, at};
ghost use Rattle.cyp_diff.specs.Spreading.{MeetsFrom};

use crate::bounds::{Bounds, NONE};
use crate::gaps::{Gap, is_some_broken};
use cyp_term::{List, NoMemory};
use std::alloc::Global;

/// More than any level.
const LEVELS: i64 = 1 << 12;

/// From one level to the next.
const STEP: i64 = 1 << 26;

const LOWEST: i64 = -(1 << 40);

/// Where the integer at the place is to stand. It is not above that of a place which bounds it from above, and two places have the same
/// level exactly where each bounds the other.
fn level(bounds: &Bounds, i: u8) -> i64
    requires { i < length bounds.now }
    ensures least { pos 0 ≤ℤ result }
    ensures most { result ≤ℤ pos 4095 }
{
    let mut below: u8 = 0;
    let mut with: u8 = 0;
    for k in 0..bounds.places() {
        if bounds.distance(k, i) < NONE {
            below += 1;
            if bounds.distance(i, k) < NONE {
                with = k;
            }
        }
    }
    below as i64 * 64 + with as i64
}

/// Whether the first integer, less the second, is at most this.
fn is_within(x: i64, y: i64, most: i64) -> bool
    requires first { IsLow x }
    requires second { IsLow y }
    requires range { IsDistance most }
    ensures { IsTrue result → x ≤ℤ (y +ℤ most) }
{
    x - y <= most
}

/// Whether the integers at two places meet the bound on the first, less the second.
fn meets_bound(bounds: &Bounds, xs: &[i64], i: u8, j: u8) -> bool
    requires places { length xs.now ≡ length bounds.now }
    requires low { All IsLow xs.now }
    requires first { i < length bounds.now }
    requires second { j < length bounds.now }
    ensures { IsTrue result → Within (at xs.now) i j (distance bounds.now i j) }
{
    is_within(xs[i as usize], xs[j as usize], bounds.distance(i, j))
}

/// Whether the integer at place `i` meets its bounds.
fn meets_from(bounds: &Bounds, xs: &[i64], i: u8) -> bool
    requires places { length xs.now ≡ length bounds.now }
    requires low { All IsLow xs.now }
    requires within { i < length bounds.now }
    ensures { IsTrue result → MeetsFrom (at xs.now) i bounds.now }
{
    for j in 0..bounds.places() {
        if !meets_bound(bounds, xs, i, j) {
            return false;
        }
    }
    true
}

/// Whether the integers meet the bounds.
fn meets(bounds: &Bounds, xs: &[i64]) -> bool
    requires places { length xs.now ≡ length bounds.now }
    requires low { All IsLow xs.now }
    ensures { IsTrue result → Meets (at xs.now) bounds.now }
{
    for i in 0..bounds.places() {
        if !meets_from(bounds, xs, i) {
            return false;
        }
    }
    true
}

/// The integer lowered by what is left of the levels above its own, or `None` where that is too low.
fn lower(x: i64, level: i64) -> Option<i64>
    requires low { IsLow x }
    requires least { pos 0 ≤ℤ level }
    requires most { level ≤ℤ pos 4095 }
    ensures { IfSome result IsLow }
{
    let y = x - STEP * (LEVELS - level);
    if y < LOWEST { None } else { Some(y) }
}

/// The integers with each lowered by what is left of the levels above its own, or `None` where one gets too low.
fn lowered(alloc: Global, bounds: &Bounds, xs: &[i64]) -> Result<Option<List<i64>>, NoMemory>
    requires places { length xs.now ≡ length bounds.now }
    requires low { All IsLow xs.now }
    ensures { IfOk result (λ o. IfSome o (λ ys. (length ys ≡ length bounds.now) × All IsLow ys)) }
{
    let mut ys = Vec::with_capacity(alloc, xs.len())?;
    for i in 0..bounds.places() {
        let Some(y) = lower(xs[i as usize], level(bounds, i)) else {
            return Ok(None);
        };
        ys.push(y)?;
    }
    Ok(Some(List::from_vec(ys)))
}

/// Other integers that meet the bounds and avoid the gaps, if the given ones do once each is moved away from those that don't bound it
/// from both sides.
pub(crate) fn spread(
    alloc: Global,
    bounds: &Bounds,
    xs: &[i64],
    gaps: &[Gap],
) -> Result<Option<List<i64>>, NoMemory>
    requires places { length xs.now ≡ length bounds.now }
    requires low { All IsLow xs.now }
    requires gaps { All (IsGap (length bounds.now)) gaps.now }
    ensures { IfOk result (λ o. IfSome o (λ ys. Solves bounds.now ys × All (Apart (at ys)) gaps.now)) }
{
    let Some(ys) = lowered(alloc, bounds, xs)? else {
        return Ok(None);
    };
    if is_some_broken(ys.as_slice(), gaps) || !meets(bounds, ys.as_slice()) {
        return Ok(None);
    }
    Ok(Some(ys))
}
