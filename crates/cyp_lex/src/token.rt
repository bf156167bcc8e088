ghost use Rattle.std.specs.Prelude.{◌≡◌};
ghost use Rattle.cyp_lex.specs.Spelled.{word_text, sign_text};

/// A word that is no name.
#[derive(Clone, Copy, Debug, PartialEq, Eq, Hash)]
pub enum Word {
    Predicate,
    Void,
    Loc,
    Int,
    Set,
    Emp,
    True,
    Not,
    In,
    If,
    Else,
    Let,
    Malloc,
    Free,
    Error,
}

/// A symbol: `PointsTo` is `:->`, `Subset` is `<=i`, `Same` is `=i`, `SlashAnd` is `/\`.
/// `Star` and `Assign`, which are `*` and `=`, are symbols of programs alone.
#[derive(Clone, Copy, Debug, PartialEq, Eq, Hash)]
pub enum Sign {
    PointsTo,
    Subset,
    TwoStars,
    TwoPluses,
    Implies,
    Equal,
    Unequal,
    AtMost,
    AtLeast,
    SlashAnd,
    AndAnd,
    Same,
    Less,
    Greater,
    LeftParen,
    RightParen,
    LeftBrace,
    RightBrace,
    LeftBracket,
    RightBracket,
    Comma,
    Semicolon,
    Bar,
    Plus,
    Minus,
    Star,
    Assign,
}

/// A name's text is that from `start` to `end`. A number is at most 2147483648, or 4294967296 in a program.
#[derive(Clone, Copy, Debug, PartialEq, Eq, Hash)]
pub enum TokenKind {
    Name,
    Number(u64),
    Word(Word),
    Sign(Sign),
}

/// A token, whose bytes are those from `start` to before `end`.
#[derive(Clone, Copy, Debug, PartialEq, Eq, Hash)]
pub struct Token {
    pub kind: TokenKind,
    pub start: u32,
    pub end: u32,
}

impl Word {
    /// The bytes by which it is written.
    pub fn bytes(self) -> &'static [u8]
        ensures { result.now ≡ word_text self }
    {
        match self {
            Word::Predicate => b"predicate",
            Word::Void => b"void",
            Word::Loc => b"loc",
            Word::Int => b"int",
            Word::Set => b"set",
            Word::Emp => b"emp",
            Word::True => b"true",
            Word::Not => b"not",
            Word::In => b"in",
            Word::If => b"if",
            Word::Else => b"else",
            Word::Let => b"let",
            Word::Malloc => b"malloc",
            Word::Free => b"free",
            Word::Error => b"error",
        }
    }
}

impl Sign {
    /// The bytes by which it is written.
    pub fn bytes(self) -> &'static [u8]
        ensures { result.now ≡ sign_text self }
    {
        match self {
            Sign::PointsTo => b":->",
            Sign::Subset => b"<=i",
            Sign::TwoStars => b"**",
            Sign::TwoPluses => b"++",
            Sign::Implies => b"=>",
            Sign::Equal => b"==",
            Sign::Unequal => b"!=",
            Sign::AtMost => b"<=",
            Sign::AtLeast => b">=",
            Sign::SlashAnd => b"/\\",
            Sign::AndAnd => b"&&",
            Sign::Same => b"=i",
            Sign::Less => b"<",
            Sign::Greater => b">",
            Sign::LeftParen => b"(",
            Sign::RightParen => b")",
            Sign::LeftBrace => b"{",
            Sign::RightBrace => b"}",
            Sign::LeftBracket => b"[",
            Sign::RightBracket => b"]",
            Sign::Comma => b",",
            Sign::Semicolon => b";",
            Sign::Bar => b"|",
            Sign::Plus => b"+",
            Sign::Minus => b"-",
            Sign::Star => b"*",
            Sign::Assign => b"=",
        }
    }
}
