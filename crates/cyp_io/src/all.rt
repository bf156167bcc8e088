ghost use Rattle.std.specs.Prelude.{◌≡◌, ◌+◌, IfOk, OnErr};
ghost use Rattle.cyp_io.specs.Whole.{ReadsAll, ReadsFront, WritesAll, ReadingCounts, WritingCounts};

use crate::outside::{Got, Sink, Source, Wrote};
use cyp_term::{List, NoMemory};
use std::alloc::Global;

/// What reading to the end came to.
#[derive(Debug, PartialEq, Eq, Drop)]
pub enum Reading {
    /// All the bytes.
    Whole(List<u8>),
    /// There are more bytes than the limit.
    Long,
    /// A read failed.
    Failed,
}

/// What writing a text came to.
#[derive(Clone, Copy, Debug, PartialEq, Eq)]
pub enum Writing {
    /// All of it was taken.
    Written,
    /// A write failed, before all of it was taken.
    Failed,
}

/// Reads to the end, or one byte past the limit.
pub fn read_all<S: Source>(alloc: Global, source: &mut S, limit: usize) -> Result<Reading, NoMemory>
    ensures bytes { IfOk result (ReadsAll (S.left source.old) (S.left source.new) limit) }
    ensures cause { IfOk result (ReadingCounts (S.faults source.old) (S.faults source.new)) }

    // Where memory ran out, no read failed.
    ensures lost { OnErr result (ReadsFront (S.left source.old) (S.left source.new) (limit + 1)) }
    ensures quiet { OnErr result (S.faults source.new ≡ S.faults source.old) }
{
    let mut bytes = Vec::new(alloc);
    let mut buf = [0u8; 4096];
    while bytes.len() <= limit {
        let room = (limit - bytes.len()).saturating_add(1).min(buf.len());
        match source.read(&mut buf[..room]) {
            Got::Bytes(count) => bytes.extend_from_slice(&buf[..count])?,
            Got::End => return Ok(Reading::Whole(List::from_vec(bytes))),
            Got::Failed => return Ok(Reading::Failed),
        }
    }
    Ok(Reading::Long)
}

/// Writes all of the text, or the front of it before a fault.
#[tactic(auto, using(crate::proofs::Appended::appends_more))]
pub fn write_all<K: Sink>(sink: &mut K, text: &[u8]) -> Writing
    ensures bytes { WritesAll (K.taken sink.old) (K.taken sink.new) text.now result }
    ensures cause { WritingCounts (K.faults sink.old) (K.faults sink.new) result }
{
    let mut at = 0;
    while at < text.len() {
        match sink.write(&text[at..]) {
            Wrote::Took(count) => at += count,
            Wrote::Failed => return Writing::Failed,
        }
    }
    Writing::Written
}
