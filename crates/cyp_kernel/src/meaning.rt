ghost use Rattle.cyp_kernel.specs.Dependence.{SideDependsOnVars};
ghost use Rattle.cyp_kernel.specs.Meaning.{
  FormedIsReady,
  NormalIsReady,
  NormalKeeps,
  NumberingKeeps,
  OldAreProgram,
  PruningKeeps,
  SolvingKeeps,
  SortsAreNeeded,
  TidyingKeeps,
};
ghost use Rattle.cyp_kernel.specs.NormalSteady.{FormedIsSteady, NormalBodies, NormalIsSteady, SteadyIsReady};

/// Law: a side of a goal depends on the values of its variables alone, a set's by its members.
pub fn side_depends_on_its_variables()
    ensures { SideDependsOnVars }
{}

/// Law: solving, tidying and pruning keep the meaning of a node: each heap of the precondition is one of
/// the new precondition at the same values, and each heap of the new postcondition one of the old.
pub fn steps_keep_meaning()
    ensures solving { SolvingKeeps }
    ensures tidying { TidyingKeeps }
    ensures pruning { PruningKeeps }
{}

/// Law: new numbers of variables keep the meaning of a node, at values that belong to the new names.
pub fn numbering_keeps_meaning()
    ensures { NumberingKeeps }
{}

/// Law: the normal form keeps the meaning of a node, and gives its program variables the values of those
/// that they stand for.
pub fn normal_form_keeps_meaning()
    ensures { NormalKeeps }
{}

/// Law: the normal form of a node has what was asked of the node, and the program variables that it keeps
/// were the node's.
pub fn normal_form_is_ready()
    ensures ready { NormalIsReady }
    ensures old { OldAreProgram }
{}

/// Law: the node of a formed goal has what the normal form asks of it, where its variables have the sorts
/// of their places.
pub fn formed_goal_is_ready()
    ensures { FormedIsReady }
{}

/// Law: without the sorts of places solving may lose the meaning, even of the node of a formed goal.
pub fn sorts_are_needed()
    ensures { SortsAreNeeded }
{}

/// Law: the node of a sorted formed goal is as the rules ask. Such a node has what the normal form asks,
/// and its normal form is as the rules ask.
pub fn normal_form_is_steady()
    ensures formed { FormedIsSteady }
    ensures before { SteadyIsReady }
    ensures after { NormalIsSteady }
{}

/// Law: a body that meets the goal of a normal form, under the names that are passed on, meets the goal of
/// the node.
pub fn normal_form_keeps_bodies()
    ensures { NormalBodies }
{}
