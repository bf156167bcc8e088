ghost use Rattle.std.specs.Prelude.{◌≡◌, ◌≢◌, [], length, map};
ghost use Rattle.std.specs.List.{All};
ghost use Rattle.cyp_lex.specs.Lexemes.{lexeme_of, said_by};
ghost use Rattle.cyp_lex.specs.Readers.{heads, ident_token, is_name, is_number, is_sign, is_word, number_token, placed_number, sign_place, sign_token, word_place, word_token};
ghost use Rattle.cyp_text.specs.Parsing.{Gives, IsOfKind, IsPassed, LiesWithin, tail};

use cyp_lex::{Ident, Name, Sign, Token, TokenKind, Want, Word};
use cyp_term::Fail;
use std::alloc::Global;
use std::marker::Model;

/// What is left to be read of a text's tokens.
#[derive(Drop)]
pub(crate) struct Parser<'a> {
    text: &'a [u8],
    left: &'a [Token],
}

impl<'a> Model for Parser<'a> {
    ghost use Rattle.std.specs.Prelude.{List, length, map};
    ghost use Rattle.std.specs.List.{All};
    ghost use Rattle.cyp_lex.specs.Lexemes.{Lexeme, lexeme_of};
    ghost use Rattle.cyp_text.specs.Parsing.{LiesWithin};

    ghost Value = { List Lexeme };

    ghost view = { λ p. map (lexeme_of p.text.now) p.left.now };

    ghost invariant = { λ p. All (LiesWithin (length p.text.now)) p.left.now };
}

impl<'a> Parser<'a> {
    /// A parser that has all of these tokens before it.
    pub(crate) fn new(text: &'a [u8], tokens: &'a [Token]) -> Parser<'a>
        requires { All (LiesWithin (length text.now)) tokens.now }
        ensures { result ≡ map (lexeme_of text.now) tokens.now }
    {
        Parser { text, left: tokens }
    }

    /// How many tokens are left.
    pub(crate) fn count(&self) -> usize
        ensures { result ≡ length self.now }
    {
        self.left.len()
    }

    pub(crate) fn kind(&self) -> Option<TokenKind>
        ensures { IsOfKind result self.now }
    {
        match self.left {
            [] => None,
            [token, ..] => Some(token.kind),
        }
    }

    pub(crate) fn second_kind(&self) -> Option<TokenKind>
        ensures { IsOfKind result (tail self.now) }
    {
        match self.left {
            [] | [_] => None,
            [_, token, ..] => Some(token.kind),
        }
    }

    /// Passes over the next token, and answers its place.
    pub(crate) fn pass(&mut self) -> u32
        requires { self.old ≢ [] }
        ensures { IsPassed self.old result self.new }
    {
        let place = self.left[0].start;
        self.left = &self.left[1..];
        place
    }

    pub(crate) fn is_at_name(&self) -> bool
        ensures { result ≡ heads is_name self.now }
    {
        match self.kind() {
            Some(TokenKind::Name) => true,
            _ => false,
        }
    }

    pub(crate) fn is_at_number(&self) -> bool
        ensures { result ≡ heads is_number self.now }
    {
        match self.kind() {
            Some(TokenKind::Number(_)) => true,
            _ => false,
        }
    }

    pub(crate) fn is_at(&self, wanted: Sign) -> bool
        ensures { result ≡ heads (is_sign wanted) self.now }
    {
        match self.kind() {
            Some(TokenKind::Sign(sign)) => sign == wanted,
            _ => false,
        }
    }

    pub(crate) fn is_at_word(&self, wanted: Word) -> bool
        ensures { result ≡ heads (is_word wanted) self.now }
    {
        match self.kind() {
            Some(TokenKind::Word(word)) => word == wanted,
            _ => false,
        }
    }

    /// Passes over this symbol, and answers its place.
    pub(crate) fn sign_place(&mut self, wanted: Sign) -> Result<u32, Fail<Want>>
        ensures { Gives (sign_place wanted) self.old result self.new }
    {
        if self.is_at(wanted) {
            Ok(self.pass())
        } else {
            Err(Fail::Named(Want::NoName))
        }
    }

    pub(crate) fn sign(&mut self, wanted: Sign) -> Result<(), Fail<Want>>
        ensures { Gives (sign_token wanted) self.old result self.new }
    {
        let _place = self.sign_place(wanted)?;
        Ok(())
    }

    /// Passes over this reserved word, and answers its place.
    pub(crate) fn word_place(&mut self, wanted: Word) -> Result<u32, Fail<Want>>
        ensures { Gives (word_place wanted) self.old result self.new }
    {
        if self.is_at_word(wanted) {
            Ok(self.pass())
        } else {
            Err(Fail::Named(Want::NoName))
        }
    }

    pub(crate) fn word(&mut self, wanted: Word) -> Result<(), Fail<Want>>
        ensures { Gives (word_token wanted) self.old result self.new }
    {
        let _place = self.word_place(wanted)?;
        Ok(())
    }

    /// A number, behind its place.
    pub(crate) fn placed_number(&mut self) -> Result<(u32, u64), Fail<Want>>
        ensures { Gives placed_number self.old result self.new }
    {
        match self.kind() {
            Some(TokenKind::Number(number)) => Ok((self.pass(), number)),
            _ => Err(Fail::Named(Want::NoName)),
        }
    }

    pub(crate) fn number(&mut self) -> Result<u64, Fail<Want>>
        ensures { Gives number_token self.old result self.new }
    {
        let (_place, number) = self.placed_number()?;
        Ok(number)
    }

    pub(crate) fn ident(&mut self, alloc: Global) -> Result<Ident, Fail<Want>>
        ensures { Gives ident_token self.old result self.new }
    {
        let token = match self.left {
            [token, ..] if token.kind == TokenKind::Name => *token,
            _ => return Err(Fail::Named(Want::AName)),
        };
        let bytes = &self.text[token.start as usize..token.end as usize];
        Ok(Ident {
            text: Name::new(alloc, bytes)?,
            place: self.pass(),
        })
    }
}
