ghost use Rattle.std.specs.Prelude.{◌≡◌};
ghost use Rattle.cyp_lex.specs.Readers.{heads};
ghost use Rattle.cyp_text.specs.Parsing.{Gives};
ghost use Rattle.cyp_lex.specs.declared.want.Want.TheVariants.{AName};
ghost use Rattle.cyp_text.specs.TermReaders.{any_int, begins_int, begins_set, braced_terms, int_at, is_sum, minus_int, name_int, number_int, part_at, set_at, sum_sign};

use crate::lists::Part;
use crate::parser::Parser;
use crate::tree::{IntTree, PartTree, SetTree};
use cyp_lex::{Sign, TokenKind, Want};
use cyp_term::{Fail, List};
use std::alloc::Global;

impl<'a> Parser<'a> {
    /// Whether a plus or a minus is next.
    pub(crate) fn is_at_sum(&self) -> bool
        ensures { result ≡ heads is_sum self.now }
    {
        match self.kind() {
            Some(TokenKind::Sign(Sign::Plus)) | Some(TokenKind::Sign(Sign::Minus)) => true,
            _ => false,
        }
    }

    /// Passes over a plus or a minus, and answers whether it was a plus.
    pub(crate) fn sum_sign(&mut self) -> Result<bool, Fail<Want>>
        ensures { Gives sum_sign self.old result self.new }
    {
        let is_plus = match self.kind() {
            Some(TokenKind::Sign(Sign::Plus)) => true,
            Some(TokenKind::Sign(Sign::Minus)) => false,
            _ => return Err(Fail::Named(Want::NoName)),
        };
        let _place = self.pass();
        Ok(is_plus)
    }

    pub(crate) fn number_int(&mut self, alloc: Global) -> Result<IntTree, Fail<Want>>
        ensures { Gives number_int self.old result self.new }
    {
        let (place, number) = self.placed_number()?;
        if !self.is_at(Sign::Plus) {
            return Ok(IntTree::Num(place, number));
        }
        self.sign(Sign::Plus)?;
        let name = self.ident(alloc)?;
        Ok(IntTree::NumPlus(place, number, name))
    }

    pub(crate) fn minus_int(&mut self) -> Result<IntTree, Fail<Want>>
        ensures { Gives minus_int self.old result self.new }
    {
        let place = self.sign_place(Sign::Minus)?;
        let number = self.number()?;
        Ok(IntTree::MinusNum(place, number))
    }

    fn name_int(&mut self, alloc: Global) -> Result<IntTree, Fail<Want>>
        ensures { Gives name_int self.old result self.new }
    {
        let name = self.ident(alloc)?;
        if !self.is_at_sum() {
            return Ok(IntTree::Named(name));
        }
        let is_plus = self.sum_sign()?;
        let number = self.number()?;
        if is_plus {
            Ok(IntTree::NamePlus(name, number))
        } else {
            Ok(IntTree::NameMinus(name, number))
        }
    }

    fn any_int(&mut self, alloc: Global) -> Result<IntTree, Fail<Want>>
        ensures { Gives any_int self.old result self.new }
    {
        if self.is_at_number() {
            return self.number_int(alloc);
        }
        if self.is_at(Sign::Minus) {
            return self.minus_int();
        }
        self.name_int(alloc)
    }

    /// A term, and no sign of a sum behind it.
    pub(crate) fn int(&mut self, alloc: Global) -> Result<IntTree, Fail<Want>>
        ensures { Gives int_at self.old result self.new }
    {
        let term = self.any_int(alloc)?;
        if self.is_at_sum() {
            return Err(Fail::Named(Want::NoName));
        }
        Ok(term)
    }
}

impl Part for IntTree {
    ghost use Rattle.cyp_text.specs.PartLaws.{int_refuses};

    ghost reader = { int_at };

    ghost starts = { begins_int };

    ghost want = { AName };

    ghost refuses = { int_refuses };

    fn read(alloc: Global, from: &mut Parser<'_>) -> Result<IntTree, Fail<Want>> {
        from.int(alloc)
    }
}

impl Part for PartTree {
    ghost use Rattle.cyp_text.specs.PartLaws.{part_refuses};

    ghost reader = { part_at };

    ghost starts = { begins_set };

    ghost want = { AName };

    ghost refuses = { part_refuses };

    fn read(alloc: Global, from: &mut Parser<'_>) -> Result<PartTree, Fail<Want>> {
        from.part(alloc)
    }
}

impl<'a> Parser<'a> {
    /// Terms in braces, behind the place of the brace.
    pub(crate) fn braced_terms(&mut self, alloc: Global) -> Result<(u32, List<IntTree>), Fail<Want>>
        ensures { Gives braced_terms self.old result self.new }
    {
        let place = self.sign_place(Sign::LeftBrace)?;
        let terms = self.enclosed(alloc, Sign::RightBrace)?;
        Ok((place, terms))
    }

    /// A part of a union: a name, or terms in braces.
    fn part(&mut self, alloc: Global) -> Result<PartTree, Fail<Want>>
        ensures { Gives part_at self.old result self.new }
    {
        if self.is_at(Sign::LeftBrace) {
            let (place, terms) = self.braced_terms(alloc)?;
            return Ok(PartTree::Braces(place, terms));
        }
        Ok(PartTree::PartName(self.ident(alloc)?))
    }

    /// A union of one part or more.
    pub(crate) fn set(&mut self, alloc: Global) -> Result<SetTree, Fail<Want>>
        ensures { Gives set_at self.old result self.new }
    {
        let (first, others) = self.parts_apart(alloc, Sign::TwoPluses)?;
        Ok(SetTree { first, others })
    }
}
