ghost use Rattle.std.specs.Prelude.{◌≡◌, ◌≢◌, ◌⊎◌, List, Some, map, string_bytes, false, ℕ};
ghost use Rattle.cyp_top.specs.Answers.{Answers, IsSaid, Sends};
ghost use Rattle.cyp_top.specs.Asked.{IsLimited, asked, search_of};
ghost use Rattle.cyp_top.specs.Correctness.{AppendsCorrect};
ghost use Rattle.cyp_top.specs.Lines.{Output, words_refused};
ghost use Rattle.cyp_top.specs.Output.{IsOutput, is_search};
ghost use Rattle.cyp_top.specs.declared.status.Status.TheVariants.{NoMemory, Program, Usage, WriteFault};
ghost use Rattle.cyp_words.specs.Words.{Synth, one_worker_command_of};

use crate::answer::synth_answer;
use crate::status::Status;
use cyp_io::{Reading, Sink, Source, Writing, read_all, write_all};
use cyp_space::Settings;
use cyp_term::{Fail, Steps};
use cyp_words::{Command, Extras, read_words};
use std::alloc::Global;
use std::sync::ledger::Ledger;

/// The most bytes of a text that is read.
const LONGEST_TEXT: usize = 65_536;

/// Writes the text, and answers the status where all of it was taken.
fn send<K: Sink>(sink: &mut K, text: &[u8], status: Status) -> Status
    requires { IsSaid status }
    ensures { Sends status text.now
        record { told = K.taken sink.old; faults = K.faults sink.old }
        record { told = K.taken sink.new; faults = K.faults sink.new } result }
{
    match write_all(sink, text) {
        Writing::Written => status,
        Writing::Failed => Status::WriteFault,
    }
}

/// Refuses the words.
fn refuse<K: Sink>(sink: &mut K) -> Status
    ensures sends { Sends Usage words_refused.text
        record { told = K.taken sink.old; faults = K.faults sink.old }
        record { told = K.taken sink.new; faults = K.faults sink.new } result }
{
    send(sink, b"words refused\n", Status::Usage)
}

/// Reads a text, and writes what is said of it.
fn synthesise<S: Source, K: Sink>(
    alloc: Global,
    settings: &Settings,
    extras: Extras,
    source: &mut S,
    sink: &mut K,
) -> Status
    requires { settings.now.nodes ≡ 500000 }
    ensures answer { Answers (Some (Synth (search_of settings.now extras)))
        record { told = S.left source.old; faults = S.faults source.old }
        record { told = S.left source.new; faults = S.faults source.new }
        record { told = K.taken sink.old; faults = K.faults sink.old }
        record { told = K.taken sink.new; faults = K.faults sink.new } result }
    ensures heard { result ≢ Usage }
{
    match read_all(alloc, source, LONGEST_TEXT) {
        Err(_) => Status::NoMemory,
        Ok(Reading::Failed) => Status::ReadFault,
        Ok(Reading::Long) => send(sink, b"refused: TooLong at 65536\n", Status::Refused),
        Ok(Reading::Whole(text)) => {
            match synth_answer(alloc, settings, extras, text.as_slice()) {
                Err(_) => Status::NoMemory,
                Ok(answer) => send(sink, answer.text(), answer.status()),
            }
        }
    }
}

/// Does what the command asks for, if it is a search; the others are refused as long as they aren't built.
fn obey<S: Source, K: Sink>(
    alloc: Global,
    command: &Command,
    source: &mut S,
    sink: &mut K,
) -> Status
    requires { IsLimited command.now }
    ensures answer { Answers (Some (asked command.now))
        record { told = S.left source.old; faults = S.faults source.old }
        record { told = S.left source.new; faults = S.faults source.new }
        record { told = K.taken sink.old; faults = K.faults sink.old }
        record { told = K.taken sink.new; faults = K.faults sink.new } result }
    ensures usage { result ≡ Usage → is_search (Some (asked command.now)) ≡ false }
    ensures refused { is_search (Some (asked command.now)) ≡ false → (result ≡ Usage) ⊎ (result ≡ WriteFault) }
    ensures unread { is_search (Some (asked command.now)) ≡ false → source.new ≡ source.old }
{
    match command {
        Command::Synth(settings, extras) => synthesise(alloc, settings, *extras, source, sink),
        Command::RunOn(_) => refuse(sink),
        Command::Gen(_) => refuse(sink),
    }
}

/// Runs the program over what is handed in. For the word `synth` and its options it reads a
/// specification from the source, and writes a program that meets it, or what there is to say instead.
/// Other words are refused; `run` and `gen`, which are words of the program, are among them as long as
/// they aren't built.
pub fn run_still<S: Source, K: Sink, L: Ledger>(
    alloc: Global,
    words: &[String],
    source: &mut S,
    sink: &mut K,
    steps: &mut Steps<L>,
) -> Status
    ensures answer { Answers (one_worker_command_of (map string_bytes words.now))
        record { told = S.left source.old; faults = S.faults source.old }
        record { told = S.left source.new; faults = S.faults source.new }
        record { told = K.taken sink.old; faults = K.faults sink.old }
        record { told = K.taken sink.new; faults = K.faults sink.new } result }

    // Where it answers that there is a program, it wrote the text of one that is correct for what the source told.
    ensures correct { result ≡ Program → AppendsCorrect (one_worker_command_of (map string_bytes words.now)) (S.left source.old) (K.taken sink.old) (K.taken sink.new) }

    // Words that are refused, and no others, give this status, and the source isn't read.
    ensures usage { result ≡ Usage → is_search (one_worker_command_of (map string_bytes words.now)) ≡ false }
    ensures refused { is_search (one_worker_command_of (map string_bytes words.now)) ≡ false → (result ≡ Usage) ⊎ (result ≡ WriteFault) ⊎ (result ≡ NoMemory) }
    ensures unread { is_search (one_worker_command_of (map string_bytes words.now)) ≡ false → source.new ≡ source.old }

    // No step is counted yet.
    ensures uncounted { steps.new ≡ steps.old }
{
    let _ = steps;
    match read_words(alloc, words) {
        Ok(command) => obey(alloc, &command, source, sink),
        Err(Fail::Named(_)) => refuse(sink),
        Err(Fail::NoMemory) => Status::NoMemory,
    }
}

/// There is one output at most for words and bytes.
pub fn output_is_one()
    ensures { (words : List (List ℕ)) (bytes : List ℕ) (a b : Output) → IsOutput words bytes a → IsOutput words bytes b → a ≡ b }
{}
