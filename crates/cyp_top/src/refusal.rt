ghost use Rattle.std.specs.Prelude.{◌≡◌, IfOk};
ghost use Rattle.cyp_top.specs.Reports.{fault_name, refused_at};

use cyp_lex::{Fault, FaultKind};
use cyp_term::{List, NoMemory, Text};
use itoa::Buffer;
use std::alloc::Global;

/// The name of a kind of fault.
fn fault_name(kind: &FaultKind) -> &[u8]
    ensures { result.now ≡ fault_name kind.now }
{
    match kind {
        FaultKind::BadByte => b"BadByte",
        FaultKind::Expected => b"Expected",
        FaultKind::NumberRange => b"NumberRange",
        FaultKind::DuplicateName => b"DuplicateName",
        FaultKind::ReservedName => b"ReservedName",
        FaultKind::UnknownPredicate => b"UnknownPredicate",
        FaultKind::WrongArity => b"WrongArity",
        FaultKind::WrongSort => b"WrongSort",
        FaultKind::NotDifference => b"NotDifference",
        FaultKind::UnboundVariable => b"UnboundVariable",
        FaultKind::GuardsOverlap => b"GuardsOverlap",
        FaultKind::Unproductive => b"Unproductive",
        FaultKind::TooLarge => b"TooLarge",
        FaultKind::MissingProcedure => b"MissingProcedure",
        FaultKind::TooLong => b"TooLong",
    }
}

/// The line that refuses a text for its fault: the fault's kind and place.
pub(crate) fn refusal(alloc: Global, fault: &Fault) -> Result<Text, NoMemory>
    ensures { IfOk result (λ text. text ≡ (refused_at (fault_name fault.now.kind) fault.now.place).text) }
{
    let mut buffer = Buffer::new();
    let mut text = Vec::from_slice(alloc, b"refused: ")?;
    text.extend_from_slice(fault_name(&fault.kind))?;
    text.extend_from_slice(b" at ")?;
    text.extend_from_slice(buffer.format(fault.place).as_bytes())?;
    text.extend_from_slice(b"\n")?;
    Ok(List::from_vec(text))
}
