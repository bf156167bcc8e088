ghost use Rattle.std.specs.Prelude.{◌≡◌, IfOk, map};
ghost use Rattle.std.specs.String.{string_bytes};
ghost use Rattle.std.specs.List.{list_all};
ghost use Rattle.clap.specs.Matches.{first_value, found_of};
ghost use Rattle.clap.specs.Simple.{app_of};
ghost use Rattle.cyp_words.specs.Matches.{Parses, number_said};
ghost use Rattle.cyp_words.specs.Options.{choice_name};
ghost use Rattle.cyp_words.specs.Ready.{is_ready as is_ready_word};
ghost use Rattle.cyp_words.specs.Rules.{app};
ghost use Rattle.cyp_term.specs.Answers.{GivesWhere};
ghost use Rattle.cyp_words.specs.Words.{options_in};

use crate::choice::Choice;
use crate::command::Usage;
use crate::number::is_number;
use clap::error::ErrorKind;
use clap::{ArgMatches, Command};
use cyp_term::Fail;
use std::alloc::{AllocError, Global};

/// What the options of a command line say; a number is there where its option is.
#[derive(Clone, Copy, Debug, PartialEq, Eq)]
pub struct Options {
    pub budget: Option<u32>,
    pub unfoldings: Option<u32>,
    pub workers: Option<u32>,
    pub fuel: Option<u32>,
    pub stats: bool,
}

/// The word is `--` with more behind it, or a number. No other word is part of an option.
fn is_ready(word: &str) -> bool
    ensures { result ≡ is_ready_word word.now }
{
    match word.as_bytes() {
        [b'-', b'-', _, ..] => true,
        _ => is_number(word),
    }
}

/// Each of the words is ready.
fn are_ready(words: &[String]) -> bool
    ensures { result ≡ list_all is_ready_word (map string_bytes words.now) }
{
    for word in words {
        if !is_ready(word.as_str()) {
            return false;
        }
    }
    true
}

/// The command line of these options, for `clap`.
fn parser<'a>(alloc: Global, choices: &[Choice]) -> Result<Command<'a>, AllocError>
    ensures { IfOk result (λ c. app_of c ≡ app choices.now) }
{
    let mut parser = Command::new(alloc, "cypress")
        .no_binary_name(true)
        .disable_help_flag(true);
    for choice in choices {
        parser = parser.arg(choice.arg(alloc))?;
    }
    Ok(parser)
}

/// What `clap` finds of these options in the words.
fn parsed<'a>(
    alloc: Global,
    choices: &[Choice],
    words: &'a [String],
) -> Result<ArgMatches<'a>, Fail<Usage>>
    ensures { Parses choices.now (map string_bytes words.now) result }
{
    if !are_ready(words) {
        return Err(Fail::Named(Usage));
    }
    let parser = parser(alloc, choices)?;
    match parser.try_get_matches_from(words) {
        Ok(matches) => Ok(matches),
        Err(error) => match error.kind() {
            ErrorKind::OutOfMemory => Err(Fail::NoMemory),
            _ => Err(Fail::Named(Usage)),
        },
    }
}

/// The number of an option, if the option was found; it must be in the option's bounds.
fn number(matches: &ArgMatches, choice: Choice) -> Result<Option<u32>, Fail<Usage>>
    ensures { GivesWhere (number_said choice (first_value (found_of matches.now) (choice_name choice))) result }
{
    match matches.get_str(choice.name()) {
        None => Ok(None),
        Some(text) => match choice.number(text) {
            None => Err(Fail::Named(Usage)),
            Some(number) => Ok(Some(number)),
        },
    }
}

/// What the words say, if they are some of these options, each once.
pub fn read_options(
    alloc: Global,
    choices: &[Choice],
    words: &[String],
) -> Result<Options, Fail<Usage>>
    ensures { GivesWhere (options_in choices.now (map string_bytes words.now)) result }
{
    let matches = parsed(alloc, choices, words)?;
    let budget = number(&matches, Choice::Budget)?;
    let unfoldings = number(&matches, Choice::Unfold)?;
    let workers = number(&matches, Choice::Workers)?;
    let fuel = number(&matches, Choice::Fuel)?;
    Ok(Options {
        budget,
        unfoldings,
        workers,
        fuel,
        stats: matches.get_flag("stats"),
    })
}
