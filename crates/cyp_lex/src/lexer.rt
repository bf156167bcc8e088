ghost use Rattle.std.specs.Prelude.{◌≡◌, ℕ, ◌≤◌, List, ◌∷◌, length, IfOk, IfSome, IsTrue};
ghost use Rattle.std.specs.List.{prefix_len};
ghost use Rattle.cyp_lex.specs.Spelled.{sign_text};
ghost use Rattle.cyp_lex.specs.Lexing.{is_digit, is_name_start, is_name_byte, is_blank, is_no_line_end, name_kind, ends_in_letter, goes_on, stands, sign_at, decimal_value, number_result, lexed, piece_at, program_tokens_of, tokens_of, LieInOrder, IsWithin, Gives};

use crate::fault::{Fault, FaultKind};
use crate::token::{Sign, Token, TokenKind, Word};
use cyp_term::{Fail, List};
use std::alloc::Global;

const WORDS: [Word; 15] = [
    Word::Predicate,
    Word::Void,
    Word::Loc,
    Word::Int,
    Word::Set,
    Word::Emp,
    Word::True,
    Word::Not,
    Word::In,
    Word::If,
    Word::Else,
    Word::Let,
    Word::Malloc,
    Word::Free,
    Word::Error,
];

/// Those of specifications, and behind them those of programs alone.
const SIGNS: [Sign; 27] = [
    Sign::PointsTo,
    Sign::Subset,
    Sign::TwoStars,
    Sign::TwoPluses,
    Sign::Implies,
    Sign::Equal,
    Sign::Unequal,
    Sign::AtMost,
    Sign::AtLeast,
    Sign::SlashAnd,
    Sign::AndAnd,
    Sign::Same,
    Sign::Less,
    Sign::Greater,
    Sign::LeftParen,
    Sign::RightParen,
    Sign::LeftBrace,
    Sign::RightBrace,
    Sign::LeftBracket,
    Sign::RightBracket,
    Sign::Comma,
    Sign::Semicolon,
    Sign::Bar,
    Sign::Plus,
    Sign::Minus,
    Sign::Star,
    Sign::Assign,
];

const SPECIFICATION_SIGNS: usize = 25;

const GREATEST: u64 = 2147483648;

const GREATEST_OF_PROGRAMS: u64 = 4294967296;

/// What begins at a byte, which has so many bytes more: no token, a token, or a fault.
#[derive(Clone, Copy)]
enum Piece {
    Blank(usize),
    Begun(TokenKind, usize),
    Bad(FaultKind),
}

fn is_digit_byte(b: u8) -> bool
    ensures { result ≡ is_digit b }
{
    48 <= b && b <= 57
}

fn is_start_byte(b: u8) -> bool
    ensures { result ≡ is_name_start b }
{
    (65 <= b && b <= 90) || (97 <= b && b <= 122) || b == 95
}

fn is_inner_byte(b: u8) -> bool
    ensures { result ≡ is_name_byte b }
{
    is_start_byte(b) || is_digit_byte(b)
}

fn is_blank_byte(b: u8) -> bool
    ensures { result ≡ is_blank b }
{
    b == 32 || b == 9 || b == 13 || b == 10
}

fn name_len(text: &[u8]) -> usize
    ensures value { result ≡ prefix_len is_name_byte text.now }
    ensures within { result ≤ length text.now }
{
    for (i, b) in text.iter().enumerate() {
        if !is_inner_byte(*b) {
            return i;
        }
    }
    text.len()
}

fn digits_len(text: &[u8]) -> usize
    ensures value { result ≡ prefix_len is_digit text.now }
    ensures within { result ≤ length text.now }
{
    for (i, b) in text.iter().enumerate() {
        if !is_digit_byte(*b) {
            return i;
        }
    }
    text.len()
}

fn line_len(text: &[u8]) -> usize
    ensures value { result ≡ prefix_len is_no_line_end text.now }
    ensures within { result ≤ length text.now }
{
    for (i, b) in text.iter().enumerate() {
        if *b == 10 {
            return i;
        }
    }
    text.len()
}

/// The first of these words that is the text, or a name.
#[tactic(auto, unfolding(crate::specs::Lexing::name_kind))]
fn kind_of_name(among: &[Word], text: &[u8]) -> TokenKind
    ensures { result ≡ name_kind among.now text.now }
{
    for word in among {
        if text == word.bytes() {
            return TokenKind::Word(*word);
        }
    }
    TokenKind::Name
}

fn is_letter_sign(sign: Sign) -> bool
    ensures { result ≡ ends_in_letter sign }
{
    match sign {
        Sign::Subset | Sign::Same => true,
        _ => false,
    }
}

fn name_goes_on(text: &[u8]) -> bool
    ensures { result ≡ goes_on text.now }
{
    match text {
        [] => false,
        [b, ..] => is_inner_byte(*b),
    }
}

#[tactic(auto, unfolding(crate::specs::Lexing::stands))]
fn sign_stands(sign: Sign, text: &[u8]) -> bool
    ensures value { result ≡ stands sign text.now }
    ensures within { IsTrue result → length (sign_text sign) ≤ length text.now }
{
    let spelled = sign.bytes();
    if text.len() < spelled.len() {
        return false;
    }
    if !text.starts_with(spelled) {
        return false;
    }
    if is_letter_sign(sign) && name_goes_on(&text[spelled.len()..]) {
        return false;
    }
    true
}

#[tactic(auto, unfolding(crate::specs::Lexing::sign_at))]
fn find_sign(among: &[Sign], text: &[u8]) -> Option<Sign>
    ensures value { result ≡ sign_at among.now text.now }
    ensures within { IfSome result (λ s. length (sign_text s) ≤ length text.now) }
{
    for sign in among {
        if sign_stands(*sign, text) {
            return Some(*sign);
        }
    }
    None
}

/// The number that the digits write, if it is not too great.
fn number(greatest: u64, digits: &[u8]) -> Option<u64>
    requires { greatest ≤ 4294967296 }
    ensures { result ≡ number_result greatest (decimal_value 0 digits.now) }
{
    let mut value: u64 = 0;
    for d in digits {
        value = 10 * value + (d.saturating_sub(48)) as u64;
        if value > greatest {
            return None;
        }
    }
    Some(value)
}

/// What begins at the first byte, in a text with these symbols and numbers.
#[tactic(auto, unfolding(crate::specs::Lexing::piece_at))]
fn first_piece(signs: &[Sign], greatest: u64, first: u8, after: &[u8], text: &[u8]) -> Piece
    requires text { text.now ≡ first ∷ after.now }
    requires greatest { greatest ≤ 4294967296 }
    ensures value { result ≡ piece_at (record { signs = signs.now; greatest = greatest }) first after.now }
    ensures within { IsWithin result after.now }
{
    if is_blank_byte(first) {
        return Piece::Blank(0);
    }
    if text.starts_with(b"//".as_slice()) {
        return Piece::Blank(line_len(after));
    }
    if is_start_byte(first) {
        let more = name_len(after);
        return Piece::Begun(kind_of_name(WORDS.as_slice(), &text[..more + 1]), more);
    }
    if is_digit_byte(first) {
        let more = digits_len(after);
        return match number(greatest, &text[..more + 1]) {
            None => Piece::Bad(FaultKind::NumberRange),
            Some(n) => Piece::Begun(TokenKind::Number(n), more),
        };
    }
    match find_sign(signs, text) {
        None => Piece::Bad(FaultKind::BadByte),
        Some(sign) => Piece::Begun(TokenKind::Sign(sign), sign.bytes().len().saturating_sub(1)),
    }
}

/// The tokens of a text with these symbols and numbers.
fn lex(
    alloc: Global,
    signs: &[Sign],
    greatest: u64,
    text: &[u8],
) -> Result<List<Token>, Fail<Fault>>
    requires size { length text.now ≤ 1048576 }
    requires greatest { greatest ≤ 4294967296 }
    ensures exact { Gives result (lexed (record { signs = signs.now; greatest = greatest }) 0 0 text.now) }
    ensures in_order { IfOk result (λ ts. LieInOrder 0 ts (length text.now)) }
{
    let mut out = Vec::new(alloc);
    let mut at = 0;
    while at < text.len() {
        match first_piece(signs, greatest, text[at], &text[at + 1..], &text[at..]) {
            Piece::Blank(more) => at += more + 1,
            Piece::Begun(kind, more) => {
                let end = at + more + 1;
                out.push(Token {
                    kind,
                    start: at as u32,
                    end: end as u32,
                })?;
                at = end;
            }
            Piece::Bad(kind) => {
                return Err(Fail::Named(Fault {
                    kind,
                    place: at as u32,
                }));
            }
        }
    }
    Ok(List::from_vec(out))
}

/// The tokens of a specification's text, or the first place where no token begins or a number is
/// too great.
pub fn tokens(alloc: Global, text: &[u8]) -> Result<List<Token>, Fail<Fault>>
    requires { length text.now ≤ 65536 }
    ensures exact { Gives result (tokens_of text.now) }
    ensures in_order { IfOk result (λ ts. LieInOrder 0 ts (length text.now)) }
{
    lex(alloc, &SIGNS[..SPECIFICATION_SIGNS], GREATEST, text)
}

/// The tokens of a program's text, or the first place where no token begins or a number is too
/// great.
pub fn program_tokens(alloc: Global, text: &[u8]) -> Result<List<Token>, Fail<Fault>>
    requires { length text.now ≤ 1048576 }
    ensures exact { Gives result (program_tokens_of text.now) }
    ensures in_order { IfOk result (λ ts. LieInOrder 0 ts (length text.now)) }
{
    lex(alloc, SIGNS.as_slice(), GREATEST_OF_PROGRAMS, text)
}
