ghost use Rattle.cyp_sound.specs.Laws.{AcceptedIsCorrect, AcceptedIsSafe};

/// Law: no run of the program of an accepted derivation comes to a fault, and where it has ended its heap meets the postcondition.
pub fn accepted_derivations_are_safe()
    ensures { AcceptedIsSafe }
{}

/// Law: the program of an accepted derivation is correct.
pub fn accepted_derivations_are_correct()
    ensures { AcceptedIsCorrect }
{}
