//! Reads a specification in separation logic from standard input, and writes a program that meets it.
#![tactic(auto)]

mod words;

ghost use Rattle.std.specs.Prelude.{◌≡◌, ◌⊎◌, false, map, string_bytes};
ghost use Rattle.cyp_top.specs.Answers.{Answers};
ghost use Rattle.cyp_top.specs.Correctness.{AppendsCorrect};
ghost use Rattle.cyp_top.specs.Output.{is_search};
ghost use Rattle.cyp_top.specs.declared.status.Status.TheVariants.{NoMemory, Program, Usage, WriteFault};
ghost use Rattle.cyp_words.specs.Words.{one_worker_command_of};

use crate::words::words_behind;
use cyp_io::{Sink, Source, StdSink, StdSource};
use cyp_term::Steps;
use cyp_top::{Status, run_still};
use std::alloc::Global;
use std::marker::Brand;
use std::process::ExitCode;
use std::sync::ledger::{Blank, Ledger};
use std::{env, io};

/// What `run_still` gives, with a counter of steps that nobody reads.
fn run_uncounted<L: Ledger, S: Source, K: Sink>(
    alloc: Global,
    words: &[String],
    source: &mut S,
    sink: &mut K,
    blank: Blank,
) -> Status
    requires name { blank.name ≡ L.name }
    requires parts { blank.parts ≡ L.parts }
    requires one { blank.parts ≡ 1 }
    ensures answer { Answers (one_worker_command_of (map string_bytes words.now))
        record { told = S.left source.old; faults = S.faults source.old }
        record { told = S.left source.new; faults = S.faults source.new }
        record { told = K.taken sink.old; faults = K.faults sink.old }
        record { told = K.taken sink.new; faults = K.faults sink.new } result }
    ensures correct { result ≡ Program → AppendsCorrect (one_worker_command_of (map string_bytes words.now)) (S.left source.old) (K.taken sink.old) (K.taken sink.new) }
    ensures usage { result ≡ Usage → is_search (one_worker_command_of (map string_bytes words.now)) ≡ false }
    ensures refused { is_search (one_worker_command_of (map string_bytes words.now)) ≡ false → (result ≡ Usage) ⊎ (result ≡ WriteFault) ⊎ (result ≡ NoMemory) }
    ensures unread { is_search (one_worker_command_of (map string_bytes words.now)) ≡ false → source.new ≡ source.old }
{
    let mut steps = Steps::<L>::new(blank);
    run_still(alloc, words, source, sink, &mut steps)
}

fn main(rt: HostRuntime) -> ExitCode {
    let Ok(words) = words_behind(rt.alloc(), env::args(&rt)) else {
        return ExitCode::from(Status::NoMemory.code());
    };
    let mut source = StdSource::new(rt.reader());
    let mut sink = StdSink::new(io::writer(&rt));
    let status = run_uncounted::<Brand, _, _>(
        rt.alloc(),
        words.as_slice(),
        &mut source,
        &mut sink,
        Blank::new(1),
    );
    ExitCode::from(status.code())
}
