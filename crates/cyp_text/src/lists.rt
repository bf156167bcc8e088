ghost use Rattle.cyp_lex.specs.declared.want.Want.{Want};
ghost use Rattle.std.specs.Prelude.{List, [], ◌≡◌, Bool, IfOk};
ghost use Rattle.cyp_lex.specs.Lexemes.{Lexeme, Said};
ghost use Rattle.cyp_lex.specs.Readers.{Read, enclosed, heads, listing, is_sign, sign_token};
ghost use Rattle.cyp_text.specs.ListReaders.{GivesMore, IsShorter, Refuses, behind, many, parts_list};
ghost use Rattle.cyp_text.specs.Parsing.{Gives};

use crate::parser::Parser;
use cyp_lex::{Sign, Want};
use cyp_term::{Fail, List, NoMemory};
use std::alloc::Global;

/// A part of a text, of which lists are made that have a symbol between each two parts.
pub(crate) trait Part: Drop {
    ghost reader: { List Lexeme → Read Self };

    ghost starts: { Said → Bool };

    ghost want: { Want };

    fn read(alloc: Global, from: &mut Parser<'_>) -> Result<Self, Fail<Want>>
        ensures value { Gives reader from.old result from.new }
        ensures shorter { IsShorter result from.old from.new };

    ghost refuses: { Refuses want starts reader };
}

/// An item of a list that has nothing between its items: its first token tells that it is one.
pub(crate) trait Item: Drop {
    ghost reader: { List Lexeme → Read Self };

    ghost starts: { Said → Bool };

    fn is_next(from: &Parser<'_>) -> bool
        ensures { result ≡ heads starts from.now };

    fn read(alloc: Global, from: &mut Parser<'_>) -> Result<Self, Fail<Want>>
        ensures value { Gives reader from.old result from.new }
        ensures shorter { IsShorter result from.old from.new };
}

/// No items, with room for the one that most lists have.
fn room_for_one<T>(alloc: Global) -> Result<List<T>, NoMemory>
    ensures { IfOk result (λ xs. xs ≡ []) }
{
    Ok(List::from_vec(Vec::with_capacity(alloc, 1)?))
}

/// The list of the items, without room for more.
fn fitted<T: Drop>(items: Vec<T>) -> List<T>
    ensures { result ≡ items.items }
{
    let mut items = items;
    items.shrink_to_fit();
    List::from_vec(items)
}

impl<'a> Parser<'a> {
    /// A part behind this symbol.
    fn behind<T: Part>(&mut self, alloc: Global, separator: Sign) -> Result<T, Fail<Want>>
        ensures value { Gives (behind separator T.reader) self.old result self.new }
        ensures shorter { IsShorter result self.old self.new }
    {
        self.sign(separator)?;
        T::read(alloc, self)
    }

    /// The parts that were found, and those that follow, each behind the symbol.
    fn more_parts<T: Part>(
        &mut self,
        alloc: Global,
        separator: Sign,
        found: List<T>,
    ) -> Result<List<T>, Fail<Want>>
        ensures { GivesMore found separator T.reader self.old result self.new }
    {
        let mut found = found;
        'parts: while self.is_at(separator) {
            let part = self.behind(alloc, separator)?;
            found.push(alloc, part)?;
        }
        Ok(fitted(found.into_vec()))
    }

    /// One part, and the others each behind the symbol.
    pub(crate) fn parts_apart<T: Part>(
        &mut self,
        alloc: Global,
        separator: Sign,
    ) -> Result<(T, List<T>), Fail<Want>>
        ensures { Gives (listing (is_sign separator) (sign_token separator) T.reader) self.old result self.new }
    {
        let first = T::read(alloc, self)?;
        let others = self.more_parts(alloc, separator, room_for_one(alloc)?)?;
        Ok((first, others))
    }

    /// One part or more, with the symbol between each two.
    pub(crate) fn parts<T: Part>(
        &mut self,
        alloc: Global,
        separator: Sign,
    ) -> Result<List<T>, Fail<Want>>
        ensures { Gives (parts_list separator T.reader) self.old result self.new }
    {
        let first = T::read(alloc, self)?;
        let mut found = room_for_one(alloc)?;
        found.push(alloc, first)?;
        self.more_parts(alloc, separator, found)
    }

    /// None or more parts between commas, and the symbol that closes them.
    pub(crate) fn enclosed<T: Part>(
        &mut self,
        alloc: Global,
        close: Sign,
    ) -> Result<List<T>, Fail<Want>>
        ensures { Gives (enclosed T.want close T.starts T.reader) self.old result self.new }
    {
        if self.is_at(close) {
            self.sign(close)?;
            return Ok(List::from_vec(Vec::new(alloc)));
        }
        let parts = self.parts(alloc, Sign::Comma)?;
        self.sign(close)?;
        Ok(parts)
    }

    /// Items as long as there is one.
    pub(crate) fn items<T: Item>(&mut self, alloc: Global) -> Result<List<T>, Fail<Want>>
        ensures { Gives (many T.starts T.reader) self.old result self.new }
    {
        let mut found = Vec::with_capacity(alloc, 1)?;
        'items: while T::is_next(self) {
            let item = T::read(alloc, self)?;
            found.push(item)?;
        }
        Ok(fitted(found))
    }
}
