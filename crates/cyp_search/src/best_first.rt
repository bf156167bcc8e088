ghost use Rattle.std.specs.Prelude.{◌≡◌, IfOk};
ghost use Rattle.cyp_search.specs.Reports.{report, report_at};
ghost use Rattle.cyp_search.specs.PlainReports.{plain_report};

use crate::frontier::{expand, frontier_of};
use cyp_space::{Report, Settings, Space, Verdict};
use cyp_term::{Copied, NoMemory, Shared};
use cyp_tree::{Mark, Tree};
use std::alloc::Global;

/// The report of a search that ends with this tree.
pub fn report<R: Copied + Drop, N: Drop>(
    alloc: Global,
    tree: &Tree<R, N>,
    expansions: u32,
) -> Result<Report<R, N>, NoMemory>
    ensures { IfOk result (λ r. plain_report r ≡ report_at expansions tree.now) }
{
    let verdict = match tree.mark() {
        Mark::Failed => Verdict::None,
        Mark::Undecided => Verdict::Spent,
        Mark::Solved => match tree.chosen(alloc)? {
            Some(derivation) => Verdict::Found(derivation),
            None => unreachable!(),
        },
    };
    Ok(Report {
        verdict,
        expansions,
        nodes: tree.count(),
        depth: tree.depth(),
    })
}

/// Searches for a derivation of the root: again and again the live leaf of least priority is
/// expanded, until the root is solved or has failed, or a limit is reached.
pub fn search<S: Space>(
    alloc: Global,
    space: &S,
    root: Shared<S::Node>,
    settings: &Settings,
) -> Result<Report<S::Rule, S::Node>, NoMemory>
    ensures { IfOk result (λ r. plain_report r ≡ report record { moves = S.moves_of space.now; weight = S.weight_of space.now } settings.now.budget settings.now.nodes root) }
{
    let limit = settings.nodes();
    let mut frontier = frontier_of(alloc, space, root)?;
    for expansions in 0..settings.budget() {
        if !expand(alloc, space, limit, &mut frontier)? {
            return report(alloc, &frontier.tree, expansions);
        }
    }
    report(alloc, &frontier.tree, settings.budget())
}
