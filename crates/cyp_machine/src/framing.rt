ghost use Rattle.cyp_machine.specs.Framing.{FramingLaw, StepFramingLaw};

/// Law: a run in a larger heap never touches the added part, as long as no run without it comes to
/// a fault. Then it is a run without the added part, which stays beside it as it is.
pub fn runs_in_larger_heaps()
    ensures step { StepFramingLaw }
    ensures run { FramingLaw }
{}
