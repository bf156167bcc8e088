ghost use Rattle.std.specs.Prelude.{[], ◌≡◌, ◌≤◌, ◌∷◌, IfOk, List, length, map, ℕ};
ghost use Rattle.std.specs.List.{All};
ghost use Rattle.cyp_lex.specs.Beginnings.{Begins};
ghost use Rattle.cyp_lex.specs.Lexemes.{Lexeme, Said, lexeme_of, said_by};
ghost use Rattle.cyp_lex.specs.Readers.{is_sign};
ghost use Rattle.cyp_lex.specs.Lexing.{LieInOrder};
ghost use Rattle.cyp_lex.specs.declared.token.Sign.TheVariants.{Minus};
ghost use Rattle.cyp_text.specs.Grammar.{text_spelling};
ghost use Rattle.cyp_text.specs.GrammarFaults.{AllowsName, EndsInFirstNumber, GrammarFault, IsKind, SpoilsSum, TakesName, backwards, end_kind, ends_sum, has_void, spoils, wants_name, wants_number};
ghost use Rattle.cyp_text.specs.Parsing.{LiesWithin};
ghost use Rattle.cyp_text.specs.Stopping.{GivesWhole, IsParsed, StopsSo, Tells, TellsName};

use crate::parser::Parser;
use crate::tree::TextTree;
use cyp_lex::{Fault, FaultKind, Sign, Token, TokenKind, Want, Word};
use cyp_term::{Fail, NoMemory};
use std::alloc::Global;

/// Where no text goes on as this one does: whether a name may stand there, and how many tokens are
/// left.
#[derive(Clone, Copy, Debug, PartialEq, Eq)]
struct Stopped {
    want: Want,
    left: usize,
}

/// The tree that all of the tokens spell, or where the reader stops.
fn whole(alloc: Global, text: &[u8], tokens: &[Token]) -> Result<TextTree, Fail<Stopped>>
    requires { All (LiesWithin (length text.now)) tokens.now }
    ensures { GivesWhole (map (lexeme_of text.now) tokens.now) result }
{
    let mut parser = Parser::new(text, tokens);
    let tree = match parser.text(alloc) {
        Ok(tree) => tree,
        Err(Fail::NoMemory) => return Err(Fail::NoMemory),
        Err(Fail::Named(want)) => {
            let left = parser.count();
            return Err(Fail::Named(Stopped { want, left }));
        }
    };
    let left = parser.count();
    if left > 0 {
        return Err(Fail::Named(Stopped {
            want: Want::NoName,
            left,
        }));
    }
    Ok(tree)
}

/// Whether a name may stand behind these tokens, which a text begins with.
fn allows_name(alloc: Global, text: &[u8], front: &[Token]) -> Result<bool, NoMemory>
    requires within { All (LiesWithin (length text.now)) front.now }
    requires begins { Begins text_spelling (map (lexeme_of text.now) front.now) }
    ensures { IfOk result (λ b. Tells b (AllowsName (map (lexeme_of text.now) front.now))) }
{
    match whole(alloc, text, front) {
        Ok(_tree) => Ok(false),
        Err(Fail::Named(stopped)) => match stopped.want {
            Want::AName => Ok(true),
            Want::NoName => Ok(false),
        },
        Err(Fail::NoMemory) => Err(NoMemory),
    }
}

/// Whether the last of these tokens, which a text begins with, is a number that begins a term.
fn ends_in_first_number(alloc: Global, text: &[u8], before: &[Token]) -> Result<bool, NoMemory>
    requires within { All (LiesWithin (length text.now)) before.now }
    requires begins { Begins text_spelling (map (lexeme_of text.now) before.now) }
    ensures { IfOk result (λ b. Tells b (EndsInFirstNumber (map (lexeme_of text.now) before.now))) }
{
    match before {
        [] => Ok(false),
        [front @ .., last] => match last.kind {
            TokenKind::Number(_) => allows_name(alloc, text, front),
            _ => Ok(false),
        },
    }
}

/// Whether only a number may stand behind two tokens: a name and a plus or a minus.
fn is_name_and_sign(first: TokenKind, second: TokenKind) -> bool
    ensures { (a b : List ℕ) (more : List Said) → result ≡ wants_number (said_by second b ∷ said_by first a ∷ more) }
{
    match second {
        TokenKind::Sign(Sign::Plus) | TokenKind::Sign(Sign::Minus) => match first {
            TokenKind::Name => true,
            _ => false,
        },
        _ => false,
    }
}

/// Whether only a name may stand behind two tokens: a number and a plus.
fn is_number_and_plus(first: TokenKind, second: TokenKind) -> bool
    ensures { (a b : List ℕ) (more : List Said) → result ≡ wants_name (said_by second b ∷ said_by first a ∷ more) }
{
    match second {
        TokenKind::Sign(Sign::Plus) => match first {
            TokenKind::Number(_) => true,
            _ => false,
        },
        _ => false,
    }
}

/// Whether two tokens end a sum, or are a minus and a number.
fn is_sum_end(first: TokenKind, second: TokenKind) -> bool
    ensures { (a b : List ℕ) (more : List Said) → result ≡ ends_sum (said_by second b ∷ said_by first a ∷ more) }
{
    match second {
        TokenKind::Number(_) => match first {
            TokenKind::Sign(Sign::Plus) | TokenKind::Sign(Sign::Minus) => true,
            _ => false,
        },
        TokenKind::Name => match first {
            TokenKind::Sign(Sign::Plus) => true,
            _ => false,
        },
        _ => false,
    }
}

/// Whether a third token makes a sum of two that is no difference.
fn spoils_two(first: TokenKind, second: TokenKind, next: TokenKind) -> bool
    ensures { (a b d : List ℕ) (more : List Said) → result ≡ spoils (said_by second b ∷ said_by first a ∷ more) (said_by next d) }
{
    match next {
        TokenKind::Name => is_name_and_sign(first, second),
        TokenKind::Number(_) => is_number_and_plus(first, second),
        TokenKind::Sign(Sign::Plus) | TokenKind::Sign(Sign::Minus) => is_sum_end(first, second),
        _ => false,
    }
}

/// Whether the token makes a sum of the last two before it that is no difference.
fn spoils_last(before: &[Token], next: TokenKind) -> bool
    ensures { (text d : List ℕ) → result ≡ spoils (backwards [] (map (lexeme_of text) before.now)) (said_by next d) }
{
    match before {
        [.., first, second] => spoils_two(first.kind, second.kind, next),
        _ => false,
    }
}

fn is_minus(kind: TokenKind) -> bool
    ensures { (bytes : List ℕ) → result ≡ is_sign Minus (said_by kind bytes) }
{
    match kind {
        TokenKind::Sign(Sign::Minus) => true,
        _ => false,
    }
}

/// Whether the token, which is refused behind these, would make a sum that is no difference.
fn spoils_sum(alloc: Global, text: &[u8], before: &[Token], next: Token) -> Result<bool, NoMemory>
    requires within { All (LiesWithin (length text.now)) before.now }
    requires begins { Begins text_spelling (map (lexeme_of text.now) before.now) }
    ensures { IfOk result (λ b. Tells b (SpoilsSum (map (lexeme_of text.now) before.now) (lexeme_of text.now next).said)) }
{
    if spoils_last(before, next.kind) {
        return Ok(true);
    }
    if is_minus(next.kind) {
        return ends_in_first_number(alloc, text, before);
    }
    Ok(false)
}

/// The kind of the fault of a token that is refused behind these.
fn refused_kind(
    alloc: Global,
    text: &[u8],
    before: &[Token],
    next: Token,
    want: Want,
) -> Result<FaultKind, NoMemory>
    requires within { All (LiesWithin (length text.now)) before.now }
    requires begins { Begins text_spelling (map (lexeme_of text.now) before.now) }
    requires names { TellsName want (map (lexeme_of text.now) before.now) }
    ensures { IfOk result (λ k. IsKind (map (lexeme_of text.now) before.now) (lexeme_of text.now next).said k) }
{
    if spoils_sum(alloc, text, before, next)? {
        return Ok(FaultKind::NotDifference);
    }
    match next.kind {
        TokenKind::Word(_) => match want {
            Want::AName => Ok(FaultKind::ReservedName),
            Want::NoName => Ok(FaultKind::Expected),
        },
        _ => Ok(FaultKind::Expected),
    }
}

/// Whether the procedure has begun.
fn has_begun(tokens: &[Token]) -> bool
    ensures { (text : List ℕ) → result ≡ has_void (map (lexeme_of text) tokens.now) }
{
    for token in tokens {
        if token.kind == TokenKind::Word(Word::Void) {
            return true;
        }
    }
    false
}

/// The kind of the fault of a text that ends too early.
fn end_kind_of(tokens: &[Token]) -> FaultKind
    ensures { (text : List ℕ) → result ≡ end_kind (map (lexeme_of text) tokens.now) }
{
    if has_begun(tokens) {
        FaultKind::Expected
    } else {
        FaultKind::MissingProcedure
    }
}

/// The fault of the tokens, where the reader stops so.
fn fault(alloc: Global, text: &[u8], tokens: &[Token], stopped: Stopped) -> Result<Fault, NoMemory>
    requires size { length text.now ≤ 65536 }
    requires within { All (LiesWithin (length text.now)) tokens.now }
    requires stops { StopsSo (map (lexeme_of text.now) tokens.now) stopped }
    ensures { IfOk result (λ f. GrammarFault (length text.now) (map (lexeme_of text.now) tokens.now) f) }
{
    let at = tokens.len() - stopped.left;
    if stopped.left == 0 {
        return Ok(Fault {
            kind: end_kind_of(tokens),
            place: text.len() as u32,
        });
    }
    let next = tokens[at];
    let kind = refused_kind(alloc, text, &tokens[..at], next, stopped.want)?;
    Ok(Fault {
        kind,
        place: next.start,
    })
}

/// The tree that the tokens of a text spell, or the fault of the first token that no text of the
/// grammar allows there, or of its end.
pub fn parse(alloc: Global, text: &[u8], tokens: &[Token]) -> Result<TextTree, Fail<Fault>>
    requires size { length text.now ≤ 65536 }
    requires in_order { LieInOrder 0 tokens.now (length text.now) }
    ensures { IsParsed text.now tokens.now result }
{
    match whole(alloc, text, tokens) {
        Ok(tree) => Ok(tree),
        Err(Fail::NoMemory) => Err(Fail::NoMemory),
        Err(Fail::Named(stopped)) => Err(Fail::Named(fault(alloc, text, tokens, stopped)?)),
    }
}
