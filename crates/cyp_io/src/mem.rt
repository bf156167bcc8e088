ghost use Rattle.std.specs.Prelude.{◌≡◌, ◌<◌, ◌≤◌, ◌++◌, ◌↔◌, [], Some, ◌⊎◌, length, take, drop, IfOk, IsTrue, false};
ghost use Rattle.std.specs.List.{Contains};
ghost use Rattle.cyp_io.specs.Memory.{ReadsMemory, WritesMemory};
ghost use Rattle.cyp_io.specs.Outside.{Gives, Takes, ReadCounts, WriteCounts};

use crate::outside::{Got, Sink, Source, Wrote};
use cyp_term::{List, NoMemory};
use std::alloc::Global;
use std::marker::Model;

/// A source in memory, whose reads fail at the calls that are named. Calls are numbered from 0.
#[derive(Debug, Drop)]
pub struct MemSource {
    bytes: List<u8>,
    at: usize,
    step: usize,
    failing: List<u32>,
    calls: u64,
    faults: u64,
}

impl Model for MemSource {
    ghost use Rattle.std.specs.Prelude.{◌<◌, ◌≤◌, length, drop};
    ghost use Rattle.cyp_io.specs.Memory.{BytesLeft};

    ghost Value = { BytesLeft };

    ghost view = { λ s. record { bytes = drop s.at s.bytes; step = s.step; failing = s.failing; calls = s.calls; faults = s.faults } };

    ghost invariant = { λ s. (s.at ≤ length s.bytes) × (0 < s.step) };
}

impl MemSource {
    /// A source of these bytes, which gives at most `step` of them at one call.
    pub fn new(bytes: List<u8>, step: usize, failing: List<u32>) -> MemSource
        requires { 0 < step }
        ensures { result ≡ record { bytes = bytes; step = step; failing = failing; calls = 0; faults = 0 } }
    {
        MemSource {
            bytes,
            at: 0,
            step,
            failing,
            calls: 0,
            faults: 0,
        }
    }
}

fn is_among(failing: &[u32], call: u64) -> bool
    ensures { IsTrue result ↔ Contains failing.now call }
{
    failing.iter().any(|number| u64::from(*number) == call)
}

fn fill(buf: &mut [u8], rest: &[u8], count: usize)
    requires room { count ≤ length buf.old }
    requires there { count ≤ length rest.now }
    ensures whole { buf.new ≡ take count rest.now ++ drop count buf.old }
    ensures front { take count buf.new ≡ take count rest.now }
{
    buf[..count].copy_from_slice(&rest[..count]);
}

impl Source for MemSource {
    ghost use Rattle.std.specs.Prelude.{Some};

    ghost left = { λ s. Some s.bytes };

    ghost faults = { λ s. s.faults };

    fn read(&mut self, buf: &mut [u8]) -> Got
        requires { 0 < length buf.old }
        ensures bytes { Gives (Some self.old.bytes) (Some self.new.bytes) buf.new result }
        ensures cause { ReadCounts self.old.faults self.new.faults result }
        ensures memory { ReadsMemory self.old self.new buf.old buf.new result }
    {
        let call = self.calls;
        self.calls = call.saturating_add(1);
        if is_among(self.failing.as_slice(), call) {
            self.faults = self.faults.saturating_add(1);
            return Got::Failed;
        }
        let rest = &self.bytes.as_slice()[self.at..];
        let count = rest.len().min(self.step).min(buf.len());
        if count == 0 {
            return Got::End;
        }
        fill(buf, rest, count);
        self.at += count;
        Got::Bytes(count)
    }
}

/// A sink in memory, whose writes fail at the calls that are named and once its room is full.
/// Calls are numbered from 0.
#[derive(Debug, Drop)]
pub struct MemSink {
    bytes: Vec<u8>,
    room: usize,
    step: usize,
    failing: List<u32>,
    calls: u64,
    faults: u64,
}

impl Model for MemSink {
    ghost use Rattle.std.specs.Prelude.{◌<◌, ◌≤◌, vec_len, vec_capacity};
    ghost use Rattle.cyp_io.specs.Memory.{BytesTaken};

    ghost Value = { BytesTaken };

    ghost view = { λ s. record { bytes = s.bytes.items; room = s.room; step = s.step; failing = s.failing; calls = s.calls; faults = s.faults } };

    ghost invariant = { λ s. (vec_len s.bytes ≤ s.room) × (s.room ≤ vec_capacity s.bytes) × (0 < s.step) };
}

impl MemSink {
    /// A sink that takes `room` bytes in all, for which it takes the memory here, and at most
    /// `step` of them at one call.
    pub fn new(
        alloc: Global,
        room: usize,
        step: usize,
        failing: List<u32>,
    ) -> Result<MemSink, NoMemory>
        requires { 0 < step }
        ensures { IfOk result (λ s. s ≡ record { bytes = []; room = room; step = step; failing = failing; calls = 0; faults = 0 }) }
    {
        Ok(MemSink {
            bytes: Vec::with_capacity(alloc, room)?,
            room,
            step,
            failing,
            calls: 0,
            faults: 0,
        })
    }

    fn fails_now(&self) -> bool
        ensures yes { IsTrue result → Contains self.now.failing self.now.calls ⊎ (length self.now.bytes ≡ self.now.room) }
        ensures no { result ≡ false → (¬ Contains self.now.failing self.now.calls) × (length self.now.bytes < self.now.room) }
    {
        is_among(self.failing.as_slice(), self.calls) || self.bytes.len() == self.room
    }

    /// The bytes taken.
    pub fn bytes(&self) -> &[u8]
        ensures { result.now ≡ self.now.bytes }
    {
        self.bytes.as_slice()
    }
}

impl Sink for MemSink {
    ghost use Rattle.std.specs.Prelude.{Some};

    ghost taken = { λ s. Some s.bytes };

    ghost faults = { λ s. s.faults };

    fn write(&mut self, piece: &[u8]) -> Wrote
        requires { 0 < length piece.now }
        ensures bytes { Takes (Some self.old.bytes) (Some self.new.bytes) piece.now result }
        ensures cause { WriteCounts self.old.faults self.new.faults result }
        ensures memory { WritesMemory self.old self.new piece.now result }
    {
        let fails = self.fails_now();
        self.calls = self.calls.saturating_add(1);
        if fails {
            self.faults = self.faults.saturating_add(1);
            return Wrote::Failed;
        }
        let count = (self.room - self.bytes.len())
            .min(self.step)
            .min(piece.len());
        self.bytes.extend_from_slice(&piece[..count]).unwrap();
        Wrote::Took(count)
    }
}
