//! Tests of the words of the command line.

use cyp_term::{Fail as Refused, NoMemory};
use cyp_words::{Command, Usage, read_words};
use std::alloc::Global;
use std::test::Fail;

/// Two ways to ask for one search.
const ALIKE: &[(&[&str], &[&str])] = &[
    (&["synth"], &["synth", "--unfold", "2", "--budget=20000"]),
    (&["synth", "--budget=3"], &["synth", "--budget", "0000003"]),
    (
        &["synth", "--stats", "--unfold", "0"],
        &["synth", "--unfold=0", "--stats"],
    ),
];

/// Two searches.
const APART: &[(&[&str], &[&str])] = &[
    (&["synth"], &["synth", "--budget", "100000"]),
    (&["synth"], &["synth", "--unfold=3"]),
    (&["synth"], &["synth", "--stats"]),
    (&["synth", "--budget=3"], &["synth", "--unfold=3"]),
];

/// Words, and the most steps of their run.
const RUNS: &[(&[&str], u32)] = &[
    (&["run"], 100_000),
    (&["run", "--fuel", "1"], 1),
    (&["run", "--fuel=1000000"], 1_000_000),
];

/// Words, and the cells of their chain.
const CHAINS: &[(&[&str], u32)] = &[
    (&["gen", "1"], 1),
    (&["gen", "0000003"], 3),
    (&["gen", "16"], 16),
];

/// Words that are no command.
const REFUSED: &[&[&str]] = &[
    &[],
    &[""],
    &["Synth"],
    &["--version"],
    &["synth", "--budget", "0"],
    &["synth", "--budget", "100001"],
    &["synth", "--budget", "00000007"],
    &["synth", "--budget=00000007"],
    &["synth", "--budget", "-1"],
    &["synth", "--budget=-1"],
    &["synth", "--budget", "+1"],
    &["synth", "--budget"],
    &["synth", "--budget="],
    &["synth", "--budget", "--stats"],
    &["synth", "--budget=3", "--budget", "3"],
    &["synth", "--budget", "3\n"],
    &["synth", "--stats", "--stats"],
    &["synth", "--stats="],
    &["synth", "--budg", "3"],
    &["synth", "--"],
    &["synth", ""],
    &["synth", "3"],
    &["synth", "--unfold", "4"],
    &["synth", "--fuel", "3"],
    &["synth", "--help"],
    &["run", "--fuel", "1000001"],
    &["run", "--fuel", "0"],
    &["run", "--stats"],
    &["gen"],
    &["gen", "0"],
    &["gen", "17"],
    &["gen", "-1"],
    &["gen", "3", "3"],
];

fn owned(alloc: Global, words: &[&str]) -> Result<Vec<String>, NoMemory> {
    let mut owned = Vec::new(alloc);
    for word in words {
        owned.push(String::from_str(alloc, *word)?)?;
    }
    Ok(owned)
}

/// The command that the words are, or none where they are refused.
fn command(alloc: Global, words: &[&str]) -> Result<Option<Command>, NoMemory> {
    let words = owned(alloc, words)?;
    match read_words(alloc, words.as_slice()) {
        Ok(command) => Ok(Some(command)),
        Err(Refused::Named(Usage)) => Ok(None),
        Err(Refused::NoMemory) => Err(NoMemory),
    }
}

#[test]
fn a_search_has_its_options_in_any_order(rt: HostRuntime) -> Result<(), Fail> {
    let alloc = rt.alloc();
    for row in ALIKE {
        let (words, others) = *row;
        let read = command(alloc, words)?;
        assert!(rt; read.is_some());
        assert_eq!(rt; read, command(alloc, others)?);
    }
    Ok(())
}

#[test]
fn searches_with_other_options_differ(rt: HostRuntime) -> Result<(), Fail> {
    let alloc = rt.alloc();
    for row in APART {
        let (words, others) = *row;
        let read = command(alloc, words)?;
        let other = command(alloc, others)?;
        assert!(rt; other.is_some());
        assert!(rt; read != other);
    }
    Ok(())
}

#[test]
fn a_run_has_its_fuel(rt: HostRuntime) -> Result<(), Fail> {
    let alloc = rt.alloc();
    for row in RUNS {
        let (words, fuel) = *row;
        assert_eq!(rt; command(alloc, words)?, Some(Command::RunOn(fuel)));
    }
    Ok(())
}

#[test]
fn a_chain_has_its_cells(rt: HostRuntime) -> Result<(), Fail> {
    let alloc = rt.alloc();
    for row in CHAINS {
        let (words, cells) = *row;
        assert_eq!(rt; command(alloc, words)?, Some(Command::Gen(cells)));
    }
    Ok(())
}

#[test]
fn other_words_are_refused(rt: HostRuntime) -> Result<(), Fail> {
    let alloc = rt.alloc();
    for words in REFUSED {
        assert_eq!(rt; command(alloc, *words)?, None);
    }
    Ok(())
}
