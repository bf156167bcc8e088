ghost use Rattle.std.specs.Prelude.{◌≡◌, ℕ, ◌≤◌, ◌^◌, ◌==◌, ◌++◌, IfOk, IsTrue, length};
ghost use Rattle.std.specs.List.{All, list_any};
ghost use Rattle.cyp_term.specs.Regions.{all_set_vars, all_terms, term_in};
ghost use Rattle.cyp_term.specs.Terms.{base_eq, sort_eq, term_eq, var_eq};
ghost use Rattle.cyp_sets.specs.Masks.{share};
ghost use Rattle.cyp_sets.specs.Names.{HasPlaces, IsSingle, IsUnion, class_bit, class_in, names_of, place, var_bit};

use crate::gathering::{kinds_of, terms_of, vars_of};
use crate::masks::Mask;
use cyp_term::{Lit, NoMemory, SetTerm, Sort, Term, Var};
use std::alloc::Global;
use std::marker::Model;

/// The set variables and the element terms of literals, each once, with the class of each term, and the classes, each once.
#[derive(Debug, Drop)]
pub(crate) struct Names {
    vars: Vec<Var>,
    terms: Vec<Term>,
    classes: Vec<u8>,
    kinds: Vec<u8>,
}

impl Model for Names {
    ghost use Rattle.cyp_sets.specs.Names.{IsFew, Named};

    ghost Value = { Named };

    ghost view = { λ n. record { vars = n.vars.items; terms = n.terms.items; classes = n.classes.items; kinds = n.kinds.items } };

    ghost invariant = { λ n. IsFew (record { vars = n.vars.items; terms = n.terms.items; classes = n.classes.items; kinds = n.kinds.items }) };
}

fn same_sort(a: Sort, b: Sort) -> bool
    ensures { result ≡ sort_eq a b }
{
    match (a, b) {
        (Sort::Int, Sort::Int) | (Sort::Card, Sort::Card) | (Sort::Set, Sort::Set) => true,
        _ => false,
    }
}

pub(crate) fn same_var(a: Var, b: Var) -> bool
    ensures { result ≡ var_eq a b }
{
    same_sort(a.sort, b.sort) && a.number == b.number
}

fn same_base(a: Option<Var>, b: Option<Var>) -> bool
    ensures { result ≡ base_eq a b }
{
    match (a, b) {
        (None, None) => true,
        (Some(a), Some(b)) => same_var(a, b),
        _ => false,
    }
}

pub(crate) fn same_term(a: &Term, b: &Term) -> bool
    ensures { result ≡ term_eq a.now b.now }
{
    same_base(a.base(), b.base()) && a.offset() == b.offset()
}

fn var_place(vars: &[Var], var: Var) -> usize
    ensures { result ≡ place var_eq vars.now var }
{
    vars.iter()
        .position(|other| same_var(*other, var))
        .unwrap_or(vars.len())
}

fn term_place(terms: &[Term], term: &Term) -> usize
    ensures { result ≡ place term_eq terms.now term.now }
{
    terms
        .iter()
        .position(|other| same_term(other, term))
        .unwrap_or(terms.len())
}

fn class_place(classes: &[u8], class: u8) -> usize
    ensures { result ≡ place ◌==◌ classes.now class }
{
    classes
        .iter()
        .position(|other| *other == class)
        .unwrap_or(classes.len())
}

impl Names {
    /// The names in the literals of both lists, where the terms have these classes.
    pub(crate) fn of(
        alloc: Global,
        lits: &[Lit],
        more: &[Lit],
        classes: &[u8],
    ) -> Result<Names, NoMemory>
        requires few_vars { length (all_set_vars (lits.now ++ more.now)) ≤ 12 }
        requires few_terms { length (all_terms (lits.now ++ more.now)) ≤ 6 }
        requires classes { length classes.now ≡ length (all_terms (lits.now ++ more.now)) }
        ensures { IfOk result (λ n. n ≡ names_of (lits.now ++ more.now) classes.now) }
    {
        Ok(Names {
            vars: vars_of(alloc, lits, more)?,
            terms: terms_of(alloc, lits, more)?,
            classes: classes.to_vec(alloc)?,
            kinds: kinds_of(alloc, classes)?,
        })
    }

    /// The number of the regions, which are the numbers below it.
    pub(crate) fn region_count(&self) -> u16
        ensures { result ≡ 2 ^ length self.now.vars }
    {
        1 << self.vars.len()
    }

    /// The number of the classes.
    pub(crate) fn kind_count(&self) -> usize
        ensures count { result ≡ length self.now.kinds }
        ensures few { result ≤ 6 }
    {
        self.kinds.len()
    }

    fn var_bit(&self, var: Var) -> u16
        ensures { result ≡ var_bit self.now var }
    {
        1 << var_place(self.vars.as_slice(), var)
    }

    fn class_of(&self, term: &Term) -> u8
        requires { IsTrue (term_in term.now self.now.terms) }
        ensures { result ≡ class_in self.now term.now }
    {
        self.classes[term_place(self.terms.as_slice(), term)]
    }

    fn class_bit(&self, term: &Term) -> u8
        requires { IsTrue (term_in term.now self.now.terms) }
        ensures { result ≡ class_bit self.now term.now }
    {
        1 << class_place(self.kinds.as_slice(), self.class_of(term))
    }

    /// The bits of the variables.
    fn vars_mask(&self, vars: &[Var]) -> u16
        ensures { (m : ℕ) → share m result ≡ list_any (λ v. share m (var_bit self.now v)) vars.now }
    {
        let mut mask = 0;
        for var in vars {
            mask |= self.var_bit(*var);
        }
        mask
    }

    /// The bits of the terms' classes.
    fn classes_mask(&self, terms: &[Term]) -> u8
        requires { All (λ e. IsTrue (term_in e self.now.terms)) terms.now }
        ensures { (m : ℕ) → share m result ≡ list_any (λ e. share m (class_bit self.now e)) terms.now }
    {
        let mut mask = 0;
        for term in terms {
            mask |= self.class_bit(term);
        }
        mask
    }

    /// The mask of a set term.
    pub(crate) fn union_of(&self, set: &SetTerm) -> Mask
        requires { HasPlaces self.now set.now }
        ensures { IsUnion self.now set.now result }
    {
        Mask {
            vars: self.vars_mask(set.vars()),
            classes: self.classes_mask(set.elems()),
        }
    }

    /// The mask of the set whose one element is the term.
    pub(crate) fn single(&self, term: &Term) -> Mask
        requires { IsTrue (term_in term.now self.now.terms) }
        ensures { IsSingle self.now term.now result }
    {
        Mask {
            vars: 0,
            classes: self.class_bit(term),
        }
    }
}
