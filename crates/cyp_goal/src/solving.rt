ghost use Rattle.std.specs.Prelude.{[], ◌≡◌, ◌++◌, IfOk, length};
ghost use Rattle.cyp_goal.specs.Normal.{solve};
ghost use Rattle.cyp_goal.specs.SolvedSides.{FirstBy, IsFirst};
ghost use Rattle.cyp_goal.specs.Solving.{is_logical, solve_post, solve_pre, solved_any, solved_eq};
ghost use Rattle.cyp_goal.specs.Turns.{HasVars, SameNames, Turned};
ghost use Rattle.cyp_term.specs.Answers.{GivesWhere};
ghost use Rattle.cyp_term.specs.Terms.{var_in};

use crate::draft::{Draft, TooLarge};
use crate::equations::{Side, Unknowns, solve_for};
use crate::occurs::add_all;
use crate::var_table::VarTable;
use cyp_term::Fail;
use std::alloc::Global;

/// The program variables and the existentials are put into an empty table.
fn add_known(draft: &Draft, known: &mut VarTable)
    requires { known.old ≡ [] }
    ensures { HasVars known.new (draft.now.goal.program ++ draft.now.goal.exist) }
{
    add_all(draft.goal.program.as_slice(), known);
    add_all(draft.goal.exist.as_slice(), known);
}

/// The existentials are put into an empty table.
fn add_exist(draft: &Draft, exist: &mut VarTable)
    requires { exist.old ≡ [] }
    ensures { HasVars exist.new draft.now.goal.exist }
{
    add_all(draft.goal.exist.as_slice(), exist);
}

fn first_in_pre(draft: &Draft, known: &VarTable) -> Option<(usize, Side)>
    requires { HasVars known.now (draft.now.goal.program ++ draft.now.goal.exist) }
    ensures { FirstBy (solved_eq (is_logical draft.now.goal)) draft.now.goal.pure_pre result }
{
    Unknowns::Logical(known).first(draft.goal.pure_pre.as_slice())
}

fn first_in_post(draft: &Draft, exist: &VarTable) -> Option<(usize, Side)>
    requires { HasVars exist.now draft.now.goal.exist }
    ensures { FirstBy (solved_any (λ v. var_in v draft.now.goal.exist)) draft.now.goal.pure_post result }
{
    Unknowns::Existential(exist).first(draft.goal.pure_post.as_slice())
}

fn turn_pre(
    alloc: Global,
    mut draft: Draft,
    place: usize,
    side: Side,
) -> Result<Draft, Fail<TooLarge>>
    requires { IsFirst (solved_eq (is_logical draft.goal)) draft.goal.pure_pre place side }
    ensures turned { Turned solve_pre draft result }
    ensures names { IfOk result (λ d. SameNames draft d) }
{
    let lit = draft.goal.pure_pre.remove(place);
    let by = solve_for(alloc, lit, side)?;
    draft.substituted(alloc, &by)
}

fn turn_post(
    alloc: Global,
    mut draft: Draft,
    place: usize,
    side: Side,
) -> Result<Draft, Fail<TooLarge>>
    requires { IsFirst (solved_any (λ v. var_in v draft.goal.exist)) draft.goal.pure_post place side }
    ensures turned { Turned solve_post draft result }
    ensures names { IfOk result (λ d. SameNames draft d) }
{
    let lit = draft.goal.pure_post.remove(place);
    let by = solve_for(alloc, lit, side)?;
    draft.substituted(alloc, &by)
}

fn solve_pre(alloc: Global, mut draft: Draft) -> Result<Draft, Fail<TooLarge>>
    ensures { GivesWhere (solve_pre (length draft.goal.pure_pre) draft) result }
{
    let mut known = VarTable::new();
    add_known(&draft, &mut known);
    for _turn in 0..draft.goal.pure_pre.len() {
        let Some((place, side)) = first_in_pre(&draft, &known) else {
            return Ok(draft);
        };
        draft = turn_pre(alloc, draft, place, side)?;
    }
    Ok(draft)
}

fn solve_post(alloc: Global, mut draft: Draft) -> Result<Draft, Fail<TooLarge>>
    ensures { GivesWhere (solve_post (length draft.goal.pure_post) draft) result }
{
    let mut exist = VarTable::new();
    add_exist(&draft, &mut exist);
    for _turn in 0..draft.goal.pure_post.len() {
        let Some((place, side)) = first_in_post(&draft, &exist) else {
            return Ok(draft);
        };
        draft = turn_post(alloc, draft, place, side)?;
    }
    Ok(draft)
}

/// The equations of the pre and then of the post solved. It is `TooLarge` exactly where an offset
/// passes 2^32 in size.
pub(crate) fn solve(alloc: Global, draft: Draft) -> Result<Draft, Fail<TooLarge>>
    ensures { GivesWhere (solve draft) result }
{
    let solved = solve_pre(alloc, draft)?;
    solve_post(alloc, solved)
}
