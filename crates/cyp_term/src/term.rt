ghost use Rattle.std.specs.Prelude.{◌≡◌, IfOk, false};
ghost use Rattle.std.specs.Prelude.{negsuc, pos, ◌^◌, ◌-◌, ◌≤ℤ◌};
ghost use Rattle.cyp_term.specs.declared.fail.Fail.TheVariants.{Named};
ghost use Rattle.cyp_term.specs.Answers.{AnswersUnless};
ghost use Rattle.cyp_term.specs.TermValue.{IsBase, IsTerm};
ghost use Rattle.cyp_term.specs.Terms.{apply_term, plus, wide_term};
ghost use Rattle.cyp_term.specs.Under.{ValueUnder};

use crate::copied::{Copied, Exact};
use crate::fail::{Fail, NoMemory};
use crate::subst::Subst;
use std::alloc::Global;
use std::marker::Model;
use thiserror::Error;

const WIDEST: i64 = 1 << 32;

/// What a variable stands for: an integer, the cardinality of an instance, which is an integer
/// too, or a finite set of integers.
#[derive(Clone, Copy, Debug, PartialEq, Eq, Hash)]
pub enum Sort {
    Int,
    Card,
    Set,
}

/// A variable. Each sort is numbered apart from the others.
#[derive(Clone, Copy, Debug, PartialEq, Eq, Hash)]
pub struct Var {
    pub sort: Sort,
    pub number: u8,
}

/// An offset of a term passes 2^32 in size.
#[derive(Clone, Copy, Debug, PartialEq, Eq, Hash, Error)]
#[error("an offset passes 2^32 in size")]
pub struct TooWide;

/// An integer term: a variable of sort `Int` or `Card`, or nothing, plus an offset of at most
/// 2^32 in size.
#[derive(Clone, Copy, Debug, PartialEq, Eq, Hash)]
pub struct Term {
    base: Option<Var>,
    offset: i64,
}

impl Model for Term {
    ghost use Rattle.cyp_term.specs.TermValue.{TermValue, IsTerm};

    ghost Value = { TermValue };

    ghost view = { λ t. record { base = t.base; offset = t.offset } };

    ghost invariant = { λ t. IsTerm t.base t.offset };

    ghost inverse = { λ t. record { base = t.base; offset = t.offset } };
}

impl Term {
    /// The sum of the base and the offset; without a base, the constant.
    pub fn new(base: Option<Var>, offset: i64) -> Term
        requires { IsTerm base offset }
        ensures { result ≡ record { base = base; offset = offset } }
    {
        Term { base, offset }
    }

    /// The variable of the term, or `None` where the term is a constant.
    pub fn base(&self) -> Option<Var>
        ensures base { result ≡ self.now.base }
        ensures sort { IsBase result }
    {
        self.base
    }

    /// The number that the term adds to its variable, or the constant itself.
    pub fn offset(&self) -> i64
        ensures offset { result ≡ self.now.offset }
        ensures range { IsTerm self.now.base result }
    {
        self.offset
    }
}

impl Term {
    /// The term with its base replaced by the base's image. It is `TooWide` exactly where the sum
    /// of the offsets passes 2^32 in size.
    pub fn apply(self, by: &Subst) -> Result<Term, TooWide>
        ensures gives { AnswersUnless (wide_term (apply_term by.now self)) (apply_term by.now self) result }
        ensures value { IfOk result (λ t. ValueUnder by.now self t) }
    {
        match self.base {
            Some(var) => match by.image(var) {
                Some(to) => to.plus(self.offset),
                None => Ok(self),
            },
            None => Ok(self),
        }
    }

    /// The term plus a number of at most 2^33 in size. It is `TooWide` exactly where the sum of the
    /// offsets passes 2^32 in size.
    pub fn plus(self, more: i64) -> Result<Term, TooWide>
        requires least { negsuc (2 ^ 33 - 1) ≤ℤ more }
        requires most { more ≤ℤ pos (2 ^ 33) }
        ensures { AnswersUnless (wide_term (plus self more)) (plus self more) result }
    {
        let offset = self.offset + more;
        if offset < -WIDEST || offset > WIDEST {
            return Err(TooWide);
        }
        Ok(Term {
            base: self.base,
            offset,
        })
    }
}

impl From<TooWide> for Fail<TooWide> {
    ghost from_gives = { λ wide e. e ≡ Named wide };

    fn from(error: TooWide) -> Fail<TooWide> {
        Fail::Named(error)
    }
}

impl Copied for Var {
    fn copy(&self, _alloc: Global) -> Result<Var, NoMemory> {
        Ok(*self)
    }
}

impl Copied for Term {
    fn copy(&self, _alloc: Global) -> Result<Term, NoMemory> {
        Ok(*self)
    }
}

impl Copied for Sort {
    fn copy(&self, _alloc: Global) -> Result<Sort, NoMemory> {
        Ok(*self)
    }
}

impl Exact for Sort {
    ghost use Rattle.std.proofs.Common.{rules};

    ghost exact = { Prim.search rules };
}

impl Exact for Var {
    ghost use Rattle.std.proofs.Common.{rules};

    ghost exact = { Prim.search rules };
}

impl Exact for Term {
    ghost use Rattle.std.proofs.Common.{rules};

    ghost exact = { Prim.search rules };
}
