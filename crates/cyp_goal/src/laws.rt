//! Laws of the normal form, each proved as the contract of a function that does nothing.

ghost use Rattle.cyp_goal.specs.Dressed.{DressingLaw};
ghost use Rattle.cyp_goal.specs.Laws.{NormalOfNormal};
ghost use Rattle.cyp_goal.specs.RenamingLaw.{LogicalRenamingLaw, RenamingLaw};

/// Law: the normal form of a normal form is that normal form. It is asked that the node which was
/// brought into normal form has variables of the sorts of their places, no part twice in a set term
/// of a literal, and no existential in its pure precondition.
pub fn normal_of_a_normal_form()
    ensures { NormalOfNormal }
{}

/// Law: a node under new names for its variables has the normal form that it had, or none where it
/// had none. What its program variables were called is renamed along. It is asked that the new names
/// tell the node's variables apart and keep their sorts, and that these are the sorts of their
/// places.
pub fn normal_under_new_names()
    ensures { RenamingLaw }
{}

/// Law: where the program variables keep their names the normal form stays as it was, whatever the
/// logical variables and existentials are called. The same is asked.
pub fn normal_under_new_logical_names()
    ensures { LogicalRenamingLaw }
{}

/// Law: the normal form looks neither at the predicates of a node nor at the sizes of the blocks of
/// its goal. With others in their place it is the same but for these, and there is none where there
/// was none.
pub fn normal_over_other_predicates()
    ensures { DressingLaw }
{}
