ghost use Rattle.std.specs.Prelude.{◌≡◌};
ghost use Rattle.cyp_lex.specs.Readers.{is_sign, is_word};
ghost use Rattle.cyp_lex.specs.declared.want.Want.TheVariants.{NoName};
ghost use Rattle.cyp_lex.specs.declared.token.Sign.TheVariants.{Bar};
ghost use Rattle.cyp_lex.specs.declared.token.Word.TheVariants.{Predicate};
ghost use Rattle.cyp_text.specs.Parsing.{Gives};
ghost use Rattle.cyp_text.specs.TextReaders.{clause_at, is_sort, param_at, params_at, placed_sort, pred_at, text_at};

use crate::lists::{Item, Part};
use crate::parser::Parser;
use crate::tree::{ClauseTree, ParamTree, PredTree, SortTree, TextTree};
use cyp_lex::{Sign, TokenKind, Want, Word};
use cyp_term::{Fail, List};
use std::alloc::Global;

impl Part for ParamTree {
    ghost use Rattle.cyp_text.specs.PartLaws.{param_refuses};

    ghost reader = { param_at };

    ghost starts = { is_sort };

    ghost want = { NoName };

    ghost refuses = { param_refuses };

    fn read(alloc: Global, from: &mut Parser<'_>) -> Result<ParamTree, Fail<Want>> {
        from.param(alloc)
    }
}

impl Item for ClauseTree {
    ghost reader = { clause_at };

    ghost starts = { is_sign Bar };

    fn is_next(from: &Parser<'_>) -> bool {
        from.is_at(Sign::Bar)
    }

    fn read(alloc: Global, from: &mut Parser<'_>) -> Result<ClauseTree, Fail<Want>> {
        from.clause(alloc)
    }
}

impl Item for PredTree {
    ghost reader = { pred_at };

    ghost starts = { is_word Predicate };

    fn is_next(from: &Parser<'_>) -> bool {
        from.is_at_word(Word::Predicate)
    }

    fn read(alloc: Global, from: &mut Parser<'_>) -> Result<PredTree, Fail<Want>> {
        from.pred(alloc)
    }
}

impl<'a> Parser<'a> {
    /// The word for a sort, behind its place.
    fn sort(&mut self) -> Result<(u32, SortTree), Fail<Want>>
        ensures { Gives placed_sort self.old result self.new }
    {
        let sort = match self.kind() {
            Some(TokenKind::Word(Word::Loc)) => SortTree::LocSort,
            Some(TokenKind::Word(Word::Int)) => SortTree::IntSort,
            Some(TokenKind::Word(Word::Set)) => SortTree::SetSort,
            _ => return Err(Fail::Named(Want::NoName)),
        };
        Ok((self.pass(), sort))
    }

    fn param(&mut self, alloc: Global) -> Result<ParamTree, Fail<Want>>
        ensures { Gives param_at self.old result self.new }
    {
        let (place, sort) = self.sort()?;
        let name = self.ident(alloc)?;
        Ok(ParamTree { sort, place, name })
    }

    /// Parameters in their parentheses.
    fn params(&mut self, alloc: Global) -> Result<List<ParamTree>, Fail<Want>>
        ensures { Gives params_at self.old result self.new }
    {
        self.sign(Sign::LeftParen)?;
        self.enclosed(alloc, Sign::RightParen)
    }

    fn clause(&mut self, alloc: Global) -> Result<ClauseTree, Fail<Want>>
        ensures { Gives clause_at self.old result self.new }
    {
        let place = self.sign_place(Sign::Bar)?;
        let guard = self.lit(alloc)?;
        self.sign(Sign::Implies)?;
        let body = self.braced(alloc)?;
        Ok(ClauseTree { place, guard, body })
    }

    fn pred(&mut self, alloc: Global) -> Result<PredTree, Fail<Want>>
        ensures { Gives pred_at self.old result self.new }
    {
        self.word(Word::Predicate)?;
        let name = self.ident(alloc)?;
        let params = self.params(alloc)?;
        self.sign(Sign::LeftBrace)?;
        let first = self.clause(alloc)?;
        let others = self.items(alloc)?;
        self.sign(Sign::RightBrace)?;
        Ok(PredTree {
            name,
            params,
            first,
            others,
        })
    }

    /// A specification.
    pub(crate) fn text(&mut self, alloc: Global) -> Result<TextTree, Fail<Want>>
        ensures { Gives text_at self.old result self.new }
    {
        let preds = self.items(alloc)?;
        self.word(Word::Void)?;
        let name = self.ident(alloc)?;
        let params = self.params(alloc)?;
        let pre = self.braced(alloc)?;
        let post = self.braced(alloc)?;
        Ok(TextTree {
            preds,
            name,
            params,
            pre,
            post,
        })
    }
}
