ghost use Rattle.cyp_formed.specs.FormedLaws.{ReadIsFormed, ReadIsRegular, ReadIsSorted, ReadPredsAreFormed};

/// Law: a specification that is read has a formed goal, which is within the limits as it is
/// written and in its normal form.
pub fn goal_that_is_read_is_formed()
    ensures { ReadIsFormed }
{}

/// Law: in a goal that is read each variable has the sort of its place, no part of a set term
/// stands twice in a literal, and no existential in the pure precondition. So the goal has what is
/// asked for by the law that the normal form of a normal form is that normal form.
pub fn goal_that_is_read_is_sorted()
    ensures sorted { ReadIsSorted }
    ensures regular { ReadIsRegular }
{}

/// Law: the predicates of a specification that is read are formed.
pub fn predicates_that_are_read_are_formed()
    ensures { ReadPredsAreFormed }
{}
