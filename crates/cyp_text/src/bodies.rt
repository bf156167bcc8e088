ghost use Rattle.std.specs.Prelude.{◌≡◌};
ghost use Rattle.cyp_lex.specs.Readers.{heads, left_by_second};
ghost use Rattle.cyp_text.specs.BodyReaders.{begins_item, body_at, conjunction_at, is_conjunction, item_at, item_list, items_body, later_item_at};
ghost use Rattle.cyp_text.specs.ChunkReaders.{is_chunk_tail};
ghost use Rattle.cyp_text.specs.Parsing.{Gives};
ghost use Rattle.cyp_text.specs.TextReaders.{braced_at};

use crate::lists::Item;
use crate::parser::Parser;
use crate::tree::{BodyTree, Conjunction, ItemTree, PureTree};
use cyp_lex::{Sign, TokenKind, Want, Word};
use cyp_term::{Fail, Shared};
use std::alloc::Global;

impl Item for (Conjunction, ItemTree) {
    ghost reader = { later_item_at };

    ghost starts = { is_conjunction };

    fn is_next(from: &Parser<'_>) -> bool {
        match from.kind() {
            Some(TokenKind::Sign(Sign::SlashAnd)) | Some(TokenKind::Sign(Sign::AndAnd)) => true,
            _ => false,
        }
    }

    fn read(alloc: Global, from: &mut Parser<'_>) -> Result<(Conjunction, ItemTree), Fail<Want>> {
        from.later_item(alloc)
    }
}

impl<'a> Parser<'a> {
    /// An item: the word `true`, or a literal.
    fn item(&mut self, alloc: Global) -> Result<ItemTree, Fail<Want>>
        ensures { Gives item_at self.old result self.new }
    {
        if self.is_at_word(Word::True) {
            self.word(Word::True)?;
            return Ok(ItemTree::TrueItem);
        }
        let literal = self.lit(alloc)?;
        Ok(ItemTree::LitItem(literal))
    }

    fn conjunction(&mut self) -> Result<Conjunction, Fail<Want>>
        ensures { Gives conjunction_at self.old result self.new }
    {
        let conjunction = match self.kind() {
            Some(TokenKind::Sign(Sign::SlashAnd)) => Conjunction::Slashes,
            Some(TokenKind::Sign(Sign::AndAnd)) => Conjunction::Ampersands,
            _ => return Err(Fail::Named(Want::NoName)),
        };
        let _place = self.pass();
        Ok(conjunction)
    }

    /// An item behind its conjunction.
    fn later_item(&mut self, alloc: Global) -> Result<(Conjunction, ItemTree), Fail<Want>>
        ensures { Gives later_item_at self.old result self.new }
    {
        let conjunction = self.conjunction()?;
        let item = self.item(alloc)?;
        Ok((conjunction, item))
    }

    /// Items up to their semicolon.
    fn pure(&mut self, alloc: Global) -> Result<PureTree, Fail<Want>>
        ensures { Gives item_list self.old result self.new }
    {
        let first = self.item(alloc)?;
        let others = self.items(alloc)?;
        self.sign(Sign::Semicolon)?;
        Ok(PureTree::Items(Shared::new(alloc, first)?, others))
    }

    /// Whether a body that is next begins with an item: where a name is next, the token behind it
    /// tells.
    fn is_at_item(&self) -> bool
        ensures { result ≡ left_by_second begins_item is_chunk_tail self.now }
    {
        match self.kind() {
            Some(TokenKind::Name) => match self.second_kind() {
                Some(TokenKind::Sign(Sign::PointsTo)) | Some(TokenKind::Sign(Sign::LeftParen)) => {
                    false
                }
                _ => true,
            },
            Some(TokenKind::Word(Word::True)) | Some(TokenKind::Word(Word::Not)) => true,
            Some(TokenKind::Number(_)) | None => true,
            Some(TokenKind::Sign(Sign::Minus)) | Some(TokenKind::Sign(Sign::LeftBrace)) => true,
            _ => false,
        }
    }

    /// A pure part and the chunks of a heap.
    fn items_body(&mut self, alloc: Global) -> Result<BodyTree, Fail<Want>>
        ensures { Gives items_body self.old result self.new }
    {
        let pure = self.pure(alloc)?;
        let chunks = self.heap(alloc)?;
        Ok(BodyTree { pure, chunks })
    }

    /// A body, whose pure part may be left out.
    fn body(&mut self, alloc: Global) -> Result<BodyTree, Fail<Want>>
        ensures { Gives body_at self.old result self.new }
    {
        if self.is_at_item() {
            return self.items_body(alloc);
        }
        let chunks = self.heap(alloc)?;
        Ok(BodyTree {
            pure: PureTree::NoItems,
            chunks,
        })
    }

    /// A body in its braces.
    pub(crate) fn braced(&mut self, alloc: Global) -> Result<BodyTree, Fail<Want>>
        ensures { Gives braced_at self.old result self.new }
    {
        self.sign(Sign::LeftBrace)?;
        let body = self.body(alloc)?;
        self.sign(Sign::RightBrace)?;
        Ok(body)
    }
}
