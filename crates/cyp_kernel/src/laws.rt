ghost use Rattle.cyp_kernel.specs.Laws.{BoundGrows, BoundIsAbove, BoundIsOnly, BoundLaw, LowerIsBelow, ProgramIsClosed};

/// Law: the bound of a body's steps at a measure is, as often as the body has steps, nine more or the
/// greatest bound at a smaller measure. No other function is.
pub fn bound_in_one_line()
    ensures holds { BoundLaw }
    ensures alone { BoundIsOnly }
{}

/// Law: the bound grows with the number of steps, with each number of the measure and with the number
/// that it begins from, which it never falls below.
pub fn bound_grows()
    ensures grows { BoundGrows }
    ensures above { BoundIsAbove }
{}

/// Law: a call at a lexicographically lower measure, whose later numbers are at most the number that
/// is begun from, is within the greatest that the bound's equation takes.
pub fn lower_measure_is_bounded()
    ensures { LowerIsBelow }
{}

/// Law: the program of a derivation calls no procedure that isn't there, so each of its states has
/// ended, or its next step faults, or it has a next step.
pub fn program_of_derivation_is_closed()
    ensures { ProgramIsClosed }
{}
