ghost use Rattle.std.specs.Prelude.{IfOk, length, ◌<◌, ◌^◌, ◌≤◌};
ghost use Rattle.cyp_machine.specs.Bounds.{IsBounded};
ghost use Rattle.cyp_machine.specs.Outcomes.{IsOutcome};
ghost use Rattle.cyp_machine.specs.States.{start};
ghost use Rattle.cyp_prog.specs.Programs.{plain_program};

use crate::outcome::Outcome;
use crate::state::State;
use crate::stepped::Stepped;
use crate::store::Store;
use cyp_prog::Program;
use cyp_term::NoMemory;
use std::alloc::Global;

/// Runs the procedure at this place of the program with these arguments and this store, for `fuel`
/// steps at most. An allocation takes the least free base, and zeros.
pub fn run_program(
    alloc: Global,
    program: &Program,
    entry: u16,
    args: &[i64],
    store: Store,
    fuel: u32,
) -> Result<Outcome, NoMemory>
    requires entry { entry < length program.now.procs }
    requires args { length args.now ≤ 65535 }
    requires numbers { IsBounded (2 ^ 33) (start (plain_program program.now) entry args.now store) }
    requires fuel { fuel ≤ 1000000 }
    ensures { IfOk result (λ o. IsOutcome (plain_program program.now) (start (plain_program program.now) entry args.now store) fuel o) }
{
    let mut state = State::start(alloc, program, entry, args, store)?;
    for made in 0..fuel {
        match state.step(alloc, program)? {
            Stepped::Moved => {}
            Stepped::Ended => return Ok(Outcome::Ended(state.into_store(), made)),
            Stepped::Faulted(cause) => return Ok(Outcome::Faulted(cause, made + 1)),
        }
    }
    if state.has_ended() {
        return Ok(Outcome::Ended(state.into_store(), fuel));
    }
    Ok(Outcome::Spent)
}
