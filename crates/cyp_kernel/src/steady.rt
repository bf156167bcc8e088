ghost use Rattle.cyp_kernel.specs.SteadyLaws.{LeavesSteady, NormalExistStand, PremisesSteady, RootIsSteady};

/// Law: what a rule leaves to do, before the normal form, is as the rules ask.
pub fn rules_leave_steady()
    ensures { LeavesSteady }
{}

/// Law: each existential of a normal form stands in it.
pub fn normal_existentials_stand()
    ensures { NormalExistStand }
{}

/// Law: the root of a derivation is a node as the rules ask, and the premises of such a node are such
/// nodes again.
pub fn nodes_stay_steady()
    ensures root { RootIsSteady }
    ensures premises { PremisesSteady }
{}
