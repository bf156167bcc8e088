ghost use Rattle.std.specs.Prelude.{IfOk, ◌≡◌};
ghost use Rattle.cyp_writing.specs.Printing.{specification_text};

use crate::spec::Spec;
use cyp_term::{NoMemory, Text};
use cyp_writing::spec_text;
use std::alloc::Global;

/// The text of a specification: each predicate and then the procedure on a line.
pub fn write_spec(alloc: Global, spec: &Spec) -> Result<Text, NoMemory>
    ensures { IfOk result (λ t. t ≡ specification_text spec.now) }
{
    spec_text(
        alloc,
        spec.preds().get(),
        spec.name().as_slice(),
        spec.goal(),
    )
}
