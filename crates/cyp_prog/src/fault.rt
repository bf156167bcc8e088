/// What is wrong with a program's text.
#[derive(Clone, Copy, Debug, PartialEq, Eq, Hash)]
pub enum ProgKind {
    BadByte,
    Expected,
    NumberRange,
    UnknownName,
    DuplicateName,
    WrongArity,
    TooLarge,
}

/// Why a program's text is refused, and at which byte.
#[derive(Clone, Copy, Debug, PartialEq, Eq, Hash)]
pub struct ProgFault {
    pub kind: ProgKind,
    pub place: u32,
}
