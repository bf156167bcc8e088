ghost use Rattle.cyp_machine.specs.Allocations.{AllocatedLaw, CellsLaw, HeapLaw, StartLaw};

/// Law: the cells that a run has had are those of its first heap and those that it has allocated,
/// and a run of a program whose allocations are of at most eight cells, say, allocates at most
/// eight for each step.
pub fn cells_are_within_steps()
    ensures cells { CellsLaw }
    ensures allocated { AllocatedLaw }
    ensures start { StartLaw }
    ensures heap { HeapLaw }
{}
