ghost use Rattle.std.specs.Prelude.{[], map, option_map, ◌∷◌};
ghost use Rattle.std.specs.String.{string_bytes};
ghost use Rattle.cyp_term.specs.Answers.{GivesWhere};
ghost use Rattle.cyp_words.specs.Commands.{command_value};
ghost use Rattle.cyp_words.specs.Words.{gen_by, one_worker_command_of, options_in, run_by, synth_by};
ghost use Rattle.cyp_words.specs.declared.choice.Choice.TheVariants.{Budget, Fuel, Stats, Unfold};

use crate::choice::Choice;
use crate::command::{Command, Extras, Usage};
use crate::number::number_within;
use crate::options::read_options;
use cyp_space::Settings;
use cyp_term::Fail;
use std::alloc::Global;

/// The most nodes of a search.
const MOST_NODES: u32 = 500_000;

/// The search that the options behind `synth` ask for.
fn synth(alloc: Global, words: &[String]) -> Result<Command, Fail<Usage>>
    ensures { GivesWhere (option_map command_value (option_map synth_by (options_in (Budget ∷ Unfold ∷ Stats ∷ []) (map string_bytes words.now)))) result }
{
    let known = [Choice::Budget, Choice::Unfold, Choice::Stats];
    let options = read_options(alloc, &known, words)?;
    let settings = Settings::new(
        options.budget.unwrap_or(20_000),
        options.unfoldings.unwrap_or(2) as u8,
        options.workers.unwrap_or(1),
        MOST_NODES,
    );
    Ok(Command::Synth(
        settings,
        Extras {
            stats: options.stats,
        },
    ))
}

/// The run that the options behind `run` ask for.
fn run_on(alloc: Global, words: &[String]) -> Result<Command, Fail<Usage>>
    ensures { GivesWhere (option_map command_value (option_map run_by (options_in (Fuel ∷ []) (map string_bytes words.now)))) result }
{
    let options = read_options(alloc, &[Choice::Fuel], words)?;
    Ok(Command::RunOn(options.fuel.unwrap_or(100_000)))
}

/// The chain that the one word behind `gen` asks for.
fn chain(words: &[String]) -> Result<Command, Fail<Usage>>
    ensures { GivesWhere (option_map command_value (gen_by (map string_bytes words.now))) result }
{
    match words {
        [cells] => match number_within(1, 16, cells.as_str()) {
            Some(cells) => Ok(Command::Gen(cells)),
            None => Err(Fail::Named(Usage)),
        },
        _ => Err(Fail::Named(Usage)),
    }
}

/// The command that the words are; the program's name isn't among them. It is `Usage` exactly where
/// they are no command.
pub fn read_words(alloc: Global, words: &[String]) -> Result<Command, Fail<Usage>>
    ensures { GivesWhere (option_map command_value (one_worker_command_of (map string_bytes words.now))) result }
{
    match words {
        [] => Err(Fail::Named(Usage)),
        [command, options @ ..] => match command.as_str() {
            "synth" => synth(alloc, options),
            "run" => run_on(alloc, options),
            "gen" => chain(options),
            _ => Err(Fail::Named(Usage)),
        },
    }
}
