ghost use Rattle.cyp_found.specs.Laws.{FollowedIsAccepted, FoundIsAccepted, FoundIsCorrect};

/// Law: a derivation that follows the move table, whole or cut to some kinds of row, is accepted where
/// its root has no companions.
pub fn followed_derivations_are_accepted()
    ensures { FollowedIsAccepted }
{}

/// Law: a derivation that a search finds is accepted at the node that the search began with, where that
/// has no companions.
pub fn found_derivations_are_accepted()
    ensures { FoundIsAccepted }
{}

/// Law: the program of a derivation that a search finds from the root of a goal is correct.
pub fn found_derivations_are_correct()
    ensures { FoundIsCorrect }
{}
