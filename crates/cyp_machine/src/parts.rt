ghost use Rattle.cyp_machine.specs.Parts.{CallLaw, FollowedLaw, InnerRunLaw, JoinLaw, SplitLaw};

/// Law: runs join and split.
pub fn runs_join_and_split()
    ensures join { JoinLaw }
    ensures split { SplitLaw }
{}

/// Law: a run of bodies with something later is inside the bodies, which run as they do alone, or
/// past them: they have come to their end, and then what is later runs. So it is with one body
/// that is followed by another.
pub fn run_is_inside_or_past()
    ensures bodies { InnerRunLaw }
    ensures followed { FollowedLaw }
{}

/// Law: behind the step that begins a call comes the call's own run, or that to its end, the
/// return, and then the rest of the caller.
pub fn call_runs_as_its_own()
    ensures { CallLaw }
{}
