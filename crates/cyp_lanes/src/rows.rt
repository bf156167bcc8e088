ghost use Rattle.std.specs.Prelude.{◌≡◌, ◌≤◌, ◌+◌, length, FitsSigned};
ghost use Rattle.std.specs.Int.{w64};
ghost use Rattle.std.specs.List.{All};
ghost use Rattle.std.specs.Simd.Lanes.{chunk};
ghost use Rattle.cyp_lanes.specs.Rows.{IsModest, relaxed};

use std::simd::prelude::*;

fn eight(row: &[i64], at: usize) -> [i64; 8]
    requires { at + 8 ≤ length row.now }
    ensures entries { result ≡ chunk at 8 row.now }
    ensures fit { All (FitsSigned w64) result }
{
    [
        row[at],
        row[at + 1],
        row[at + 2],
        row[at + 3],
        row[at + 4],
        row[at + 5],
        row[at + 6],
        row[at + 7],
    ]
}

fn relax_lanes(dst: i64x8, src: i64x8, add: i64) -> i64x8
    requires dst { All (FitsSigned w64) dst }
    requires src { All IsModest src }
    requires add { IsModest add }
    requires long { length src ≤ 8 }
    ensures { result ≡ relaxed dst src add }
{
    dst.simd_min(src + i64x8::splat(add))
}

fn relax_tail(dst: &mut [i64], src: &[i64], add: i64)
    requires lengths { length src.now ≡ length dst.old }
    requires add { IsModest add }
    requires entries { All IsModest src.now }
    ensures { dst.new ≡ relaxed dst.old src.now add }
{
    for i in 0..dst.len() {
        dst[i] = dst[i].min(src[i] + add);
    }
}

/// Makes each entry of `dst` the lesser of itself and the entry of `src` at its place plus `add`.
pub fn relax_row(dst: &mut [i64], src: &[i64], add: i64)
    requires lengths { length src.now ≡ length dst.old }
    requires add { IsModest add }
    requires entries { All IsModest src.now }
    ensures { dst.new ≡ relaxed dst.old src.now add }
{
    let mut at = 0;
    while at + 8 <= dst.len() {
        let here = i64x8::from_array(eight(dst, at));
        let there = i64x8::from_array(eight(src, at));
        relax_lanes(here, there, add).copy_to_slice(&mut dst[at..]);
        at += 8;
    }
    relax_tail(&mut dst[at..], &src[at..], add);
}
