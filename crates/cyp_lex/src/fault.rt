ghost use Rattle.std.specs.Prelude.{◌≡◌};
ghost use Rattle.cyp_lex.specs.FaultNumber.{fault_number};

/// What is wrong with a specification's text.
#[derive(Clone, Copy, Debug, PartialEq, Eq, Hash)]
pub enum FaultKind {
    BadByte,
    Expected,
    NumberRange,
    DuplicateName,
    ReservedName,
    UnknownPredicate,
    WrongArity,
    WrongSort,
    NotDifference,
    UnboundVariable,
    GuardsOverlap,
    Unproductive,
    TooLarge,
    MissingProcedure,
    TooLong,
}

/// Why a text is refused, and at which byte.
#[derive(Clone, Copy, Debug, PartialEq, Eq, Hash)]
pub struct Fault {
    pub kind: FaultKind,
    pub place: u32,
}

impl FaultKind {
    /// The number by which a kind is named outside the program.
    pub fn number(self) -> u8
        ensures { result ≡ fault_number self }
    {
        match self {
            FaultKind::BadByte => 1,
            FaultKind::Expected => 2,
            FaultKind::NumberRange => 3,
            FaultKind::DuplicateName => 4,
            FaultKind::ReservedName => 5,
            FaultKind::UnknownPredicate => 6,
            FaultKind::WrongArity => 7,
            FaultKind::WrongSort => 8,
            FaultKind::NotDifference => 9,
            FaultKind::UnboundVariable => 10,
            FaultKind::GuardsOverlap => 11,
            FaultKind::Unproductive => 12,
            FaultKind::TooLarge => 13,
            FaultKind::MissingProcedure => 14,
            FaultKind::TooLong => 15,
        }
    }
}
