//! Laws of the definitions on instances and heaps, each proved as the contract of a function that
//! does nothing.

ghost use Rattle.cyp_heap.specs.Laws.{ApplyChunksLaw, BoundLaw, GuardsLaw, HeightLaw, ListingLaw, SideHeightsLaw};

/// Law: an instance's height is at most the number of cells of its heap, where the predicates are
/// formed.
pub fn height_is_within_cells()
    ensures { HeightLaw }
{}

/// Law: each number with which a side of a goal holds is at most the number of cells of the heap,
/// where the predicates are formed.
pub fn side_heights_are_within_cells()
    ensures { SideHeightsLaw }
{}

/// Law: in one assignment at most one clause of a predicate has a true guard, where the predicates
/// are formed.
pub fn one_guard_is_true()
    ensures { GuardsLaw }
{}

/// Law: what an instance means doesn't depend on how its set arguments are listed.
pub fn instance_means_by_members()
    ensures { ListingLaw }
{}

/// Law: what an instance means doesn't depend on the bound above its height.
pub fn instance_means_at_any_bound()
    ensures { BoundLaw }
{}

/// Law: chunks after a substitution hold exactly where the chunks hold of the values that the
/// substitution gives their variables.
pub fn applied_chunks_hold()
    ensures { ApplyChunksLaw }
{}
