ghost use Rattle.std.specs.Prelude.{◌≡◌};
ghost use Rattle.cyp_top.specs.Code.{code_of};

/// How a command ended.
#[derive(Clone, Copy, Debug, PartialEq, Eq)]
pub enum Status {
    /// A program was found and written.
    Program,
    /// There is no program that the search could find.
    NoProgram,
    /// The search was still open when its budget was spent.
    Spent,
    /// The text was refused.
    Refused,
    /// The words were refused.
    Usage,
    /// The source failed.
    ReadFault,
    /// The sink failed.
    WriteFault,
    /// Memory ran out.
    NoMemory,
}

impl Status {
    /// The exit code of the program.
    pub fn code(self) -> u8
        ensures { result ≡ code_of self }
    {
        match self {
            Status::Program => 0,
            Status::NoProgram => 1,
            Status::Spent => 2,
            Status::Refused => 3,
            Status::Usage => 4,
            Status::ReadFault => 5,
            Status::WriteFault => 6,
            Status::NoMemory => 7,
        }
    }
}
