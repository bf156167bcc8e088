ghost use Rattle.std.specs.Prelude.{◌≡◌};
ghost use Rattle.cyp_names.specs.LeastFaults.{lesser_of};
ghost use Rattle.cyp_names.specs.NameFaults.{fault_at};
ghost use Rattle.cyp_names.specs.FaultOrder.{is_before, least_fault};

use cyp_lex::{Fault, FaultKind};

/// Whether the first fault is at the lesser place, or at the same place and has the lesser number.
fn is_before(one: Fault, other: Fault) -> bool
    ensures { result ≡ is_before one other }
{
    one.place < other.place || (one.place == other.place && one.kind.number() < other.kind.number())
}

/// The lesser of two faults, where both are there.
pub fn lesser(one: Option<Fault>, other: Option<Fault>) -> Option<Fault>
    ensures { result ≡ lesser_of one other }
{
    match (one, other) {
        (Some(one), Some(other)) if is_before(other, one) => Some(other),
        (Some(one), _) => Some(one),
        (None, other) => other,
    }
}

/// A fault of this kind at this place.
pub fn fault(kind: FaultKind, place: u32) -> Option<Fault>
    ensures { result ≡ least_fault (fault_at kind place) }
{
    Some(Fault { kind, place })
}
