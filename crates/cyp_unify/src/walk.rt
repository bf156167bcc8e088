//! The walk over the positions of a match: places where a companion's chunk and a present chunk
//! meet.

ghost use Rattle.std.specs.Prelude.{◌≡◌, [], ◌∷◌, ◌++◌, ◌||◌, None, false, is_some, neg_ℤ, true};
ghost use Rattle.cyp_term.specs.TermValue.{IsTerm};
ghost use Rattle.cyp_term.specs.Terms.{apply_term, plus, set_image, var_in, wide_set, wide_term};
ghost use Rattle.cyp_term.specs.declared.lit.Lit.TheVariants.{Eq};
ghost use Rattle.cyp_unify.specs.Matches.{Content, OfSet, Plain, add_int, add_set, binds, lone_var, no_walk, set_step, waits, walk_step};
ghost use Rattle.cyp_unify.specs.Walking.{Finds};

use crate::found::Mend;
use cyp_term::{Copied, Fail, IntBind, List, Lit, SetBind, SetTerm, Subst, Term, TooWide, Var};
use std::alloc::Global;
use std::marker::Model;

pub(crate) fn is_among(var: Var, vars: &[Var]) -> bool
    ensures { result ≡ var_in var vars.now }
{
    vars.iter().any(|other| *other == var)
}

/// The offset of a term is in range.
pub(crate) fn narrow_term(term: Term)
    ensures { wide_term term ≡ false }
{
    let _offset = term.offset();
}

/// The offsets of a set term's elements are in range.
pub(crate) fn narrow_set(set: &SetTerm)
    ensures { wide_set set.now ≡ false }
{
    for elem in set.elems() {
        narrow_term(*elem);
    }
}

/// The variable that is the whole set term.
fn lone_var(set: &SetTerm) -> Option<Var>
    ensures { result ≡ lone_var set.now }
{
    match (set.vars(), set.elems()) {
        ([var], []) => Some(*var),
        _ => None,
    }
}

/// Whether the set term is neither empty nor one variable.
fn waits(set: &SetTerm) -> bool
    ensures { result ≡ waits set.now }
{
    match (set.vars(), set.elems()) {
        ([], []) | ([_], []) => false,
        _ => true,
    }
}

/// What has been found so far: the bindings of the companion's variables, what must be shown, the
/// set terms whose equality waits until all is bound, and what must be stored.
#[derive(Drop)]
pub(crate) struct Walk {
    pub(crate) by: Subst,
    pub(crate) need: List<Lit>,
    pub(crate) late: List<(SetTerm, SetTerm)>,
    pub(crate) mends: List<Mend>,
}

impl Model for Walk {
    ghost use Rattle.std.specs.Prelude.{◌≡◌, false};
    ghost use Rattle.cyp_unify.specs.Matches.{Walk as FoundWalk};
    ghost use Rattle.cyp_unify.specs.Walking.{wide_walk};

    ghost Value = { FoundWalk };

    ghost view = { λ w. record { by = w.by; need = w.need; late = w.late; mends = w.mends } };

    ghost invariant = { λ w. wide_walk (record { by = w.by; need = w.need; late = w.late; mends = w.mends }) ≡ false };
}

impl Walk {
    /// Nothing is found before the first position.
    pub(crate) fn new(alloc: Global) -> Walk
        ensures { result ≡ no_walk }
    {
        let by = Subst {
            ints: List::from_vec(Vec::new(alloc)),
            sets: List::from_vec(Vec::new(alloc)),
        };
        Walk {
            by,
            need: List::from_vec(Vec::new(alloc)),
            late: List::from_vec(Vec::new(alloc)),
            mends: List::from_vec(Vec::new(alloc)),
        }
    }

    /// The variable that the companion's term would bind.
    fn unbound(&self, exist: &[Var], term: Term) -> Option<Var>
        ensures { result ≡ binds exist.now self.now.by term }
    {
        let var = term.base()?;
        if is_among(var, exist) || self.by.image(var).is_some() {
            return None;
        }
        Some(var)
    }

    /// Whether a set variable is an existential or bound.
    fn is_settled(&self, exist: &[Var], var: Var) -> bool
        ensures { result ≡ (var_in var exist.now || is_some (set_image self.now.by.sets var)) }
    {
        is_among(var, exist) || self.by.set_image(var).is_some()
    }

    /// Binds the variable to the term less this offset.
    fn bind(&mut self, alloc: Global, var: Var, to: Term, offset: i64) -> Result<(), Fail<TooWide>>
        requires { IsTerm None offset }
        ensures { Finds (record self.old { by = add_int self.old.by var (plus to (neg_ℤ offset)) }) self.new result }
    {
        let to = to.plus(-offset)?;
        self.by.ints.push(alloc, IntBind { var, to })?;
        Ok(())
    }

    fn bind_set(&mut self, alloc: Global, var: Var, to: &SetTerm) -> Result<(), Fail<TooWide>>
        ensures { Finds (record self.old { by = add_set self.old.by var to.now }) self.new result }
    {
        narrow_set(to);
        let to = to.copy(alloc)?;
        self.by.sets.push(alloc, SetBind { var, to })?;
        Ok(())
    }

    fn need(&mut self, alloc: Global, from: Term, to: Term) -> Result<(), Fail<TooWide>>
        ensures { Finds (record self.old { need = self.old.need ++ Eq (apply_term self.old.by from) to ∷ [] }) self.new result }
    {
        narrow_term(to);
        let from = from.apply(&self.by)?;
        self.need.push(alloc, Lit::Eq(from, to))?;
        Ok(())
    }

    fn need_same(
        &mut self,
        alloc: Global,
        from: &SetTerm,
        to: &SetTerm,
    ) -> Result<(), Fail<TooWide>>
        ensures { Finds (set_step self.old from.now to.now false) self.new result }
    {
        narrow_set(to);
        let from = from.apply(alloc, &self.by)?;
        let to = to.copy(alloc)?;
        self.need.push(alloc, Lit::Same(from, to))?;
        Ok(())
    }

    /// The equality waits until all is bound.
    fn put_off(&mut self, alloc: Global, from: &SetTerm, to: &SetTerm) -> Result<(), Fail<TooWide>>
        ensures { Finds (set_step self.old from.now to.now true) self.new result }
    {
        let both = (from.copy(alloc)?, to.copy(alloc)?);
        self.late.push(alloc, both)?;
        Ok(())
    }

    fn mend(&mut self, alloc: Global, cell: u8, from: Term) -> Result<(), Fail<TooWide>>
        ensures { Finds (record self.old { mends = self.old.mends ++ record { cell = cell; value = apply_term self.old.by from } ∷ [] }) self.new result }
    {
        let value = from.apply(&self.by)?;
        self.mends.push(alloc, Mend { cell, value })?;
        Ok(())
    }

    /// Where a companion's argument, address or cardinality meets a present term. It is `TooWide`
    /// only where an offset passes 2^32 in size.
    pub(crate) fn meet_terms(
        &mut self,
        alloc: Global,
        exist: &[Var],
        from: Term,
        to: Term,
    ) -> Result<(), Fail<TooWide>>
        ensures { Finds (walk_step exist.now self.old (Plain from to)) self.new result }
    {
        match self.unbound(exist, from) {
            Some(var) => self.bind(alloc, var, to, from.offset()),
            None => self.need(alloc, from, to),
        }
    }

    /// Where the content of a companion's cell meets that of the present cell at this place.
    pub(crate) fn meet_contents(
        &mut self,
        alloc: Global,
        exist: &[Var],
        cell: u8,
        from: Term,
        to: Term,
    ) -> Result<(), Fail<TooWide>>
        ensures { Finds (walk_step exist.now self.old (Content cell from to)) self.new result }
    {
        match self.unbound(exist, from) {
            Some(var) => self.bind(alloc, var, to, from.offset()),
            None => self.mend(alloc, cell, from),
        }
    }

    /// Where a companion's set term meets a present one.
    pub(crate) fn meet_sets(
        &mut self,
        alloc: Global,
        exist: &[Var],
        from: &SetTerm,
        to: &SetTerm,
    ) -> Result<(), Fail<TooWide>>
        ensures { Finds (walk_step exist.now self.old (OfSet from.now to.now)) self.new result }
    {
        match lone_var(from) {
            Some(var) if self.is_settled(exist, var) => self.need_same(alloc, from, to),
            Some(var) => self.bind_set(alloc, var, to),
            None if waits(from) => self.put_off(alloc, from, to),
            None => self.need_same(alloc, from, to),
        }
    }
}
