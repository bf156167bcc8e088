ghost use Rattle.std.specs.Prelude.{◌≡◌, ◌≢◌, ◌++◌, ◌∷◌, [], IfOk, Ok, OnOk, decimal};
ghost use Rattle.cyp_moves.specs.Moves.{is_built};
ghost use Rattle.cyp_search.specs.PlainReports.{plain_report, plain_verdict};
ghost use Rattle.cyp_search.specs.Reports.{report};
ghost use Rattle.cyp_top.specs.Answers.{IsSaid};
ghost use Rattle.cyp_top.specs.Asked.{search_of};
ghost use Rattle.cyp_top.specs.Given.{IsFoundVerdict, plain_answer};
ghost use Rattle.cyp_top.specs.Lines.{line};
ghost use Rattle.cyp_top.specs.Reports.{stats_if, stats_text};
ghost use Rattle.cyp_top.specs.Synthesis.{IsSpecOutput, goal_space, report_output, result_output};
ghost use Rattle.cyp_top.specs.declared.status.Status.TheVariants.{Usage};

use crate::refusal::refusal;
use crate::root::root_of_spec;
use crate::status::Status;
use cyp_heap::Node;
use cyp_moves::GoalSpace;
use cyp_print::program_text;
use cyp_search::search;
use cyp_space::{Report, Settings, Verdict};
use cyp_spec::{Spec, read_spec};
use cyp_step::Rule;
use cyp_term::{Fail, List, NoMemory, Shared, Text};
use cyp_words::Extras;
use itoa::Buffer;
use std::alloc::Global;

/// What is said of a text.
#[derive(Debug, Drop)]
pub(crate) enum Answer {
    /// The text of a program that meets it.
    Program(Text),
    /// The search found none.
    NoProgram(Text),
    /// The search came to one of its limits.
    Spent(Text),
    /// The line of the text's fault.
    Refused(Text),
}

impl Answer {
    /// The bytes that are written.
    pub(crate) fn text(&self) -> &[u8]
        ensures { result.now ≡ (plain_answer self.now).text }
    {
        match self {
            Answer::Program(text)
            | Answer::NoProgram(text)
            | Answer::Spent(text)
            | Answer::Refused(text) => text.as_slice(),
        }
    }

    pub(crate) fn status(&self) -> Status
        ensures value { result ≡ (plain_answer self.now).status }
        ensures said { IsSaid result }
        ensures heard { result ≢ Usage }
    {
        match self {
            Answer::Program(_) => Status::Program,
            Answer::NoProgram(_) => Status::NoProgram,
            Answer::Spent(_) => Status::Spent,
            Answer::Refused(_) => Status::Refused,
        }
    }
}

/// The report of the search from the root.
pub(crate) fn report_of(
    alloc: Global,
    settings: &Settings,
    root: Node,
) -> Result<Report<Rule, Node>, NoMemory>
    ensures { IfOk result (λ r. plain_report r ≡ report (goal_space is_built settings.now.«unfold») settings.now.budget settings.now.nodes root) }
{
    let space = GoalSpace {
        unfold: settings.unfold(),
    };
    let root = Shared::new(alloc, root)?;
    search(alloc, &space, root, settings)
}

/// Writes a line with a number behind a name.
fn add_count(text: &mut Vec<u8>, name: &[u8], count: u32) -> Result<(), NoMemory>
    ensures { OnOk result (text.new.items ≡ text.old.items ++ line (name.now ++ decimal count)) }
{
    let mut buffer = Buffer::new();
    text.extend_from_slice(name)?;
    text.extend_from_slice(buffer.format(count).as_bytes())?;
    text.extend_from_slice(b"\n")?;
    Ok(())
}

/// The expansions, nodes and depth of the search, as comments.
fn stats_text(alloc: Global, report: &Report<Rule, Node>) -> Result<Vec<u8>, NoMemory>
    ensures { IfOk result (λ t. t.items ≡ stats_text (plain_report report.now)) }
{
    let mut text = Vec::new(alloc);
    add_count(&mut text, b"// expansions ", report.expansions)?;
    add_count(&mut text, b"// nodes ", report.nodes)?;
    add_count(&mut text, b"// depth ", report.depth)?;
    Ok(text)
}

/// The text, and behind it the lines of the report where they are asked for.
fn with_stats(
    alloc: Global,
    text: Text,
    stats: bool,
    report: &Report<Rule, Node>,
) -> Result<Text, NoMemory>
    ensures { IfOk result (λ t. t ≡ text ++ stats_if stats (plain_report report.now)) }
{
    let mut text = text.into_vec();
    if stats {
        let mut lines = stats_text(alloc, report)?;
        text.append(&mut lines)?;
    }
    Ok(List::from_vec(text))
}

/// A text of these bytes.
fn text_of(alloc: Global, bytes: &[u8]) -> Result<Text, NoMemory>
    ensures { IfOk result (λ t. t ≡ bytes.now) }
{
    Ok(List::from_vec(Vec::from_slice(alloc, bytes)?))
}

/// What is said where the search gave this report.
fn report_answer(
    alloc: Global,
    name: &Text,
    settings: &Settings,
    extras: Extras,
    report: &Report<Rule, Node>,
) -> Result<Answer, NoMemory>
    requires { IsFoundVerdict (plain_verdict report.now.verdict) }
    ensures { IfOk result (λ a. plain_answer a ≡ report_output (search_of settings.now extras) name.now (plain_report report.now)) }
{
    let stats = extras.stats;
    match &report.verdict {
        Verdict::Found(derivation) => {
            let text = program_text(alloc, name.as_slice(), derivation)?;
            Ok(Answer::Program(with_stats(alloc, text, stats, report)?))
        }
        Verdict::None => {
            let text = text_of(alloc, b"no program\n")?;
            Ok(Answer::NoProgram(with_stats(alloc, text, stats, report)?))
        }
        Verdict::Spent => {
            let text = text_of(alloc, b"budget spent\n")?;
            Ok(Answer::Spent(with_stats(alloc, text, stats, report)?))
        }
    }
}

/// What is said of a specification.
fn specification_answer(
    alloc: Global,
    settings: &Settings,
    extras: Extras,
    spec: &Spec,
) -> Result<Answer, NoMemory>
    requires { settings.now.nodes ≡ 500000 }
    ensures { IfOk result (λ a. plain_answer a ≡ result_output is_built (search_of settings.now extras) (Ok spec.now)) }
{
    let root = root_of_spec(alloc, spec)?;
    let report = report_of(alloc, settings, root)?;
    report_answer(alloc, spec.name(), settings, extras, &report)
}

/// What is said of a text.
#[tactic(auto, using(crate::proofs::Outputs::is_read, crate::proofs::Outputs::is_refused))]
pub(crate) fn synth_answer(
    alloc: Global,
    settings: &Settings,
    extras: Extras,
    bytes: &[u8],
) -> Result<Answer, NoMemory>
    requires { settings.now.nodes ≡ 500000 }
    ensures { IfOk result (λ a. IsSpecOutput is_built (search_of settings.now extras) bytes.now (plain_answer a)) }
{
    match read_spec(alloc, bytes) {
        Ok(spec) => specification_answer(alloc, settings, extras, &spec),
        Err(Fail::Named(fault)) => Ok(Answer::Refused(refusal(alloc, &fault)?)),
        Err(Fail::NoMemory) => Err(NoMemory),
    }
}
