ghost use Rattle.cyp_machine.specs.ClosedLaws.{EntryIsThere, InputIsClosed, SpelledIsClosed};
ghost use Rattle.cyp_machine.specs.Laws.{HaltedHasNoStep, LeastIsAStep, LeastIsOne, RunGoesOn};
ghost use Rattle.cyp_machine.specs.LeastRunLaws.{HaltedIsLongest, LeastRunIsARun, LeastRunsMeet};

/// Law: a state of a run of a program whose called procedures are all there has ended, or its next
/// step faults, or it has a next step. Then it has one with the least allocation too.
pub fn run_goes_on_or_halts()
    ensures { RunGoesOn }
{}

/// Law: a state that has ended, or whose next step faults, has no next step.
pub fn halted_state_has_no_step()
    ensures { HaltedHasNoStep }
{}

/// Law: a state has one next step at most with the least allocation, and that is one of its steps.
pub fn least_allocation_makes_one_step()
    ensures allowed { LeastIsAStep }
    ensures alone { LeastIsOne }
{}

/// Law: runs with the least allocation, of one length and from one state, end in one state; none is
/// longer than one to a state that has ended or whose next step faults; and each is a run.
pub fn least_run_is_one()
    ensures one { LeastRunsMeet }
    ensures longest { HaltedIsLongest }
    ensures allowed { LeastRunIsARun }
{}

/// Law: in a program that is read, alone or as the input of a run, each called procedure is there.
/// The start line calls one that is there too, with as many arguments as it has parameters.
pub fn program_that_is_read_is_closed()
    ensures spelled { SpelledIsClosed }
    ensures input { InputIsClosed }
    ensures entry { EntryIsThere }
{}
