ghost use Rattle.cyp_step.specs.Laws.{LeftNodesAreRaw, PremisesAreNodes, PremisesAreWellLinked, RootIsNode, RootIsWellLinked};

/// Law: each premise of a node is well linked.
pub fn premises_are_well_linked()
    ensures { PremisesAreWellLinked }
{}

/// Law: each premise of a node is again a node, over the same predicates: within the limits, with
/// instances that fit, and well linked.
pub fn premises_are_nodes()
    ensures { PremisesAreNodes }
{}

/// Law: what a rule leaves to do is well linked already before the normal form, and its instances
/// fit.
pub fn left_nodes_are_raw()
    ensures { LeftNodesAreRaw }
{}

/// Law: the normal form of a goal without companions is well linked.
pub fn root_is_well_linked()
    ensures { RootIsWellLinked }
{}

/// Law: the normal form of a goal whose instances fit is a node.
pub fn root_is_node()
    ensures { RootIsNode }
{}
