ghost use Rattle.std.specs.Prelude.{◌≡◌};
ghost use Rattle.cyp_lex.specs.Readers.{left_by_second};
ghost use Rattle.cyp_lex.specs.Readers.{is_word};
ghost use Rattle.cyp_lex.specs.declared.token.Word.TheVariants.{Not};
ghost use Rattle.cyp_text.specs.ListReaders.{many};
ghost use Rattle.cyp_text.specs.LitReaders.{lit_at, comparison, int_base, is_set_tail, closes, opening, plain_base, set_base_at, set_sign};
ghost use Rattle.cyp_text.specs.Parsing.{Gives};
ghost use Rattle.cyp_text.specs.TermReaders.{begins_int};

use crate::lit_tree::{BaseTree, LitTree};
use crate::parser::Parser;
use crate::tree::Comparison;
use cyp_lex::{Sign, TokenKind, Want, Word};
use cyp_term::{Fail, List};
use std::alloc::Global;

impl<'a> Parser<'a> {
    fn comparison(&mut self) -> Result<Comparison, Fail<Want>>
        ensures { Gives comparison self.old result self.new }
    {
        let comparison = match self.kind() {
            Some(TokenKind::Sign(Sign::Equal)) => Comparison::IsEqual,
            Some(TokenKind::Sign(Sign::Unequal)) => Comparison::IsUnequal,
            Some(TokenKind::Sign(Sign::AtMost)) => Comparison::IsAtMost,
            Some(TokenKind::Sign(Sign::Less)) => Comparison::IsBelow,
            Some(TokenKind::Sign(Sign::AtLeast)) => Comparison::IsAtLeast,
            Some(TokenKind::Sign(Sign::Greater)) => Comparison::IsAbove,
            _ => return Err(Fail::Named(Want::NoName)),
        };
        let _place = self.pass();
        Ok(comparison)
    }

    /// Passes over `=i` or `<=i`, and answers whether it was `=i`.
    fn set_sign(&mut self) -> Result<bool, Fail<Want>>
        ensures { Gives set_sign self.old result self.new }
    {
        let is_same = match self.kind() {
            Some(TokenKind::Sign(Sign::Same)) => true,
            Some(TokenKind::Sign(Sign::Subset)) => false,
            _ => return Err(Fail::Named(Want::NoName)),
        };
        let _place = self.pass();
        Ok(is_same)
    }

    fn int_base(&mut self, alloc: Global) -> Result<BaseTree, Fail<Want>>
        ensures { Gives int_base self.old result self.new }
    {
        let left = self.int(alloc)?;
        if self.is_at_word(Word::In) {
            self.word(Word::In)?;
            let set = self.set(alloc)?;
            return Ok(BaseTree::Inside(left, set));
        }
        let comparison = self.comparison()?;
        let right = self.int(alloc)?;
        Ok(BaseTree::Comparing(left, comparison, right))
    }

    fn set_base(&mut self, alloc: Global) -> Result<BaseTree, Fail<Want>>
        ensures { Gives set_base_at self.old result self.new }
    {
        let left = self.set(alloc)?;
        let is_same = self.set_sign()?;
        let right = self.set(alloc)?;
        if is_same {
            Ok(BaseTree::SameSets(left, right))
        } else {
            Ok(BaseTree::SubSets(left, right))
        }
    }

    /// Whether a literal that is next begins with a term: where a name is next, the token behind it
    /// tells.
    fn is_at_int_base(&self) -> bool
        ensures { result ≡ left_by_second begins_int is_set_tail self.now }
    {
        match self.kind() {
            Some(TokenKind::Name) => match self.second_kind() {
                Some(TokenKind::Sign(Sign::TwoPluses))
                | Some(TokenKind::Sign(Sign::Same))
                | Some(TokenKind::Sign(Sign::Subset)) => false,
                _ => true,
            },
            Some(TokenKind::Number(_)) | Some(TokenKind::Sign(Sign::Minus)) | None => true,
            _ => false,
        }
    }

    /// A literal without `not`.
    fn base(&mut self, alloc: Global) -> Result<BaseTree, Fail<Want>>
        ensures { Gives plain_base self.old result self.new }
    {
        if self.is_at_int_base() {
            self.int_base(alloc)
        } else {
            self.set_base(alloc)
        }
    }

    /// Passes over `not (`, and answers the place of the word.
    fn opening(&mut self) -> Result<u32, Fail<Want>>
        ensures { Gives opening self.old result self.new }
    {
        let place = self.word_place(Word::Not)?;
        self.sign(Sign::LeftParen)?;
        Ok(place)
    }

    /// Passes over `not (` as often as it stands there, and answers the places of the words.
    fn openings(&mut self, alloc: Global) -> Result<List<u32>, Fail<Want>>
        ensures { Gives (many (is_word Not) opening) self.old result self.new }
    {
        let mut places = Vec::new(alloc);
        'openings: while self.is_at_word(Word::Not) {
            let place = self.opening()?;
            places.push(place)?;
        }
        Ok(List::from_vec(places))
    }

    /// Passes over so many closing parentheses.
    fn close(&mut self, count: usize) -> Result<(), Fail<Want>>
        ensures { Gives (closes count) self.old result self.new }
    {
        for i in 0..count {
            self.sign(Sign::RightParen)?;
        }
        Ok(())
    }

    /// A literal.
    pub(crate) fn lit(&mut self, alloc: Global) -> Result<LitTree, Fail<Want>>
        ensures { Gives lit_at self.old result self.new }
    {
        let nots = self.openings(alloc)?;
        let base = self.base(alloc)?;
        self.close(nots.len())?;
        Ok(LitTree::new(nots, base))
    }
}
