ghost use Rattle.std.specs.Prelude.{◌≡◌, false, true};
ghost use Rattle.clap.specs.Walk.{rule_of};
ghost use Rattle.cyp_words.specs.Options.{choice_name, choice_number, is_flag};
ghost use Rattle.cyp_words.specs.Rules.{rule};

use crate::number::number_within;
use clap::{Arg, ArgAction};
use std::alloc::Global;

/// An option of a command.
#[derive(Clone, Copy, Debug, PartialEq, Eq)]
pub enum Choice {
    Budget,
    Unfold,
    Workers,
    Fuel,
    Stats,
}

impl Choice {
    /// The option's name, without the `--` before it.
    pub fn name(self) -> &'static str
        ensures { result.now ≡ choice_name self }
    {
        match self {
            Choice::Budget => "budget",
            Choice::Unfold => "unfold",
            Choice::Workers => "workers",
            Choice::Fuel => "fuel",
            Choice::Stats => "stats",
        }
    }

    /// The option as `clap` is told of it: a flag, or an option with a text.
    pub fn arg(self, alloc: Global) -> Arg<'static>
        ensures rule { rule_of result ≡ rule self }
        ensures own_level { result.global ≡ false }
    {
        let name = self.name();
        let action = match self {
            Choice::Stats => ArgAction::SetTrue,
            _ => ArgAction::Set,
        };
        Arg::new(alloc, name).long(name).action(action)
    }

    /// The number that the text writes, where the option has one and it is in the option's bounds.
    pub fn number(self, text: &str) -> Option<u32>
        ensures { result ≡ choice_number self text.now }
    {
        match self {
            Choice::Budget => number_within(1, 100_000, text),
            Choice::Unfold => number_within(0, 3, text),
            Choice::Workers => number_within(1, 32, text),
            Choice::Fuel => number_within(1, 1_000_000, text),
            Choice::Stats => None,
        }
    }
}
