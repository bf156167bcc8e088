ghost use Rattle.std.specs.Prelude.{◌≡◌, ◌↔◌, ℕ, ℤ, ◌+◌, ◌<◌, ◌≤◌, ◌+ℤ◌, ◌<ℤ◌, ◌≤ℤ◌, length, map, slice_index_or, IfOk, IsTrue};
ghost use Rattle.std.specs.List.{All};
ghost use Rattle.cyp_lanes.specs.Rows.{IsModest};
ghost use Rattle.cyp_diff.specs.Adding.{AddMeans};
ghost use Rattle.cyp_diff.specs.Distances.{IsDistance, IsRefused, IsSmall, Meets, distance, none};
ghost use Rattle.cyp_diff.specs.Solution.{Solves, least};
ghost use Rattle.cyp_diff.specs.Relaxing.{HasRoom, IsThrough, closer, lifted};

use cyp_lanes::relax_row;
use cyp_term::{Copied, List, NoMemory};
use std::alloc::Global;
use std::marker::Model;

/// How many entries a row has: as many as there may be places, in whole lanes.
pub(crate) const WIDTH: usize = 40;

pub(crate) const NONE: i64 = 1 << 60;

const FAR: i64 = 1 << 61;

/// Whether a bound could be added.
#[derive(Clone, Copy, Debug, PartialEq, Eq)]
pub enum Adding {
    Added,
    Contradiction,
}

/// Bounds on the differences between the integers at up to 33 places. Contracts see the distances that follow from them.
#[derive(Debug, Drop)]
pub struct Bounds {
    rows: Vec<[i64; WIDTH]>,
}

impl Model for Bounds {
    ghost use Rattle.std.specs.Prelude.{List, ℤ};
    ghost use Rattle.cyp_diff.specs.Closed.{AreBounds};

    ghost Value = { List (List ℤ) };

    ghost view = { λ b. b.rows.items };

    ghost invariant = { λ b. AreBounds b.rows.items };
}

fn lift_entry(entry: i64) -> i64
    ensures { result ≡ lifted entry }
{
    if entry < NONE { entry } else { FAR }
}

fn lift(row: &[i64; WIDTH]) -> [i64; WIDTH]
    ensures { result ≡ map lifted row.now }
{
    let mut out = *row;
    for k in 0..WIDTH {
        out[k] = lift_entry(out[k]);
    }
    out
}

fn come_closer(row: &mut [i64; WIDTH], i: usize, j: usize, from: &[i64; WIDTH], c: i64)
    requires first { i < 40 }
    requires second { j < 40 }
    requires small { IsSmall c }
    requires room { HasRoom i row.old }
    requires modest { All IsModest from.now }
    requires through { IsThrough i j c from.now row.old }
    ensures { row.new ≡ closer i from.now c row.old }
{
    let far = row[i];
    if far < NONE && far + c < row[j] {
        relax_row(row, from, far + c);
    }
}

fn close(rows: &mut [[i64; WIDTH]], i: usize, j: usize, from: &[i64; WIDTH], c: i64)
    requires first { i < 40 }
    requires second { j < 40 }
    requires small { IsSmall c }
    requires room { All (HasRoom i) rows.old }
    requires modest { All IsModest from.now }
    requires through { All (IsThrough i j c from.now) rows.old }
    ensures { rows.new ≡ map (closer i from.now c) rows.old }
{
    for row in rows.iter_mut() {
        come_closer(row, i, j, from, c);
    }
}

fn least_of(row: &[i64; WIDTH]) -> i64
    ensures { result ≡ least (λ k. slice_index_or row.now k none) 40 }
{
    let mut low = 0;
    for k in 0..WIDTH {
        low = row[k].min(low);
    }
    low
}

impl Bounds {
    /// No bounds between `n` places, from 1 to 33.
    pub fn new(alloc: Global, n: u8) -> Result<Bounds, NoMemory>
        requires most { n ≤ 33 }
        ensures { IfOk result (λ b. (length b ≡ n) × ((x : ℕ → ℤ) → Meets x b)) }
    {
        let mut rows = Vec::new(alloc);
        for i in 0..n as usize {
            let mut row = [NONE; WIDTH];
            row[i] = 0;
            rows.push(row)?;
        }
        Ok(Bounds { rows })
    }

    /// Adds that the integer at place `i`, less that at place `j`, is at most `c`. It takes no memory.
    pub fn add(&mut self, i: u8, j: u8, c: i64) -> Adding
        requires first { i < length self.old }
        requires second { j < length self.old }
        requires small { IsSmall c }
        ensures places { length self.new ≡ length self.old }
        ensures means { AddMeans i j c self.old self.new result }
    {
        if self.distance(i, j) <= c {
            return Adding::Added;
        }
        if self.refuses(i, j, c) {
            return Adding::Contradiction;
        }
        let from = lift(&self.rows[j as usize]);
        close(&mut self.rows, i as usize, j as usize, &from, c);
        Adding::Added
    }

    /// How many places there are.
    pub(crate) fn places(&self) -> u8
        ensures value { result ≡ length self.now }
        ensures few { result ≤ 33 }
    {
        self.rows.len() as u8
    }

    /// The least number that the integer at place `i`, less that at place `j`, is known to be at most; 2^60 where there is none.
    pub(crate) fn distance(&self, i: u8, j: u8) -> i64
        requires first { i < length self.now }
        requires second { j < length self.now }
        ensures value { result ≡ distance self.now i j }
        ensures range { IsDistance result }
    {
        self.rows[i as usize][j as usize]
    }

    /// Whether the integer at place `i`, less that at place `j`, can't be at most `c`.
    pub(crate) fn refuses(&self, i: u8, j: u8, c: i64) -> bool
        requires first { i < length self.now }
        requires second { j < length self.now }
        requires small { IsSmall c }
        ensures { IsTrue result ↔ IsRefused self.now i j c }
    {
        let back = self.distance(j, i);
        back < NONE && back + c < 0
    }

    /// Integers that meet the bounds: the least distance from each place.
    pub(crate) fn solution(&self, alloc: Global) -> Result<List<i64>, NoMemory>
        ensures { IfOk result (λ xs. Solves self.now xs) }
    {
        let mut xs = Vec::new(alloc);
        for row in self.rows.iter() {
            xs.push(least_of(row))?;
        }
        Ok(List::from_vec(xs))
    }
}

impl Copied for Bounds {
    fn copy(&self, alloc: Global) -> Result<Bounds, NoMemory> {
        let mut rows = Vec::new(alloc);
        for row in self.rows.iter() {
            rows.push(*row)?;
        }
        Ok(Bounds { rows })
    }
}
