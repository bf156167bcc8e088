ghost use Rattle.std.specs.Prelude.{◌≡◌, IfOk, IsTrue, MatchBool, MatchOption, None, Some, false, is_some};
ghost use Rattle.cyp_goal.specs.Solving.{solved_any, solved_eq, solved_set, solved_side};
ghost use Rattle.cyp_term.specs.Terms.{base_eq, sort_eq, var_in, wide_set, wide_subst};
ghost use Rattle.cyp_goal.specs.SolvedSides.{FirstBy, IsAnswer, Solves, may_solve, set_answer, side_answer, solves, term_answer};
ghost use Rattle.cyp_term.specs.declared.lit.Lit.TheVariants.{Eq, Same};

use crate::draft::TooLarge;
use crate::once::is_among;
use crate::var_table::VarTable;
use cyp_term::{Fail, IntBind, List, Lit, NoMemory, SetBind, SetTerm, Sort, Subst, Term, Var};
use std::alloc::Global;

/// The variables that equations are solved for.
#[derive(Clone, Copy)]
pub(crate) enum Unknowns<'a> {
    /// All variables but these, the program variables and the existentials.
    Logical(&'a VarTable),
    /// These existentials.
    Existential(&'a VarTable),
}

/// The side of an equation that is solved.
#[derive(Clone, Copy, Debug, PartialEq, Eq)]
pub(crate) enum Side {
    Left,
    Right,
}

impl Unknowns<'_> {
    fn has(&self, var: Var) -> bool
        ensures { result ≡ may_solve self.now var }
    {
        match self {
            Unknowns::Logical(known) => !known.has(var),
            Unknowns::Existential(exist) => exist.has(var),
        }
    }

    fn solves_term(&self, s: &Term, t: &Term) -> bool
        ensures { MatchBool result (IsAnswer (solved_side (may_solve self.now) s.now t.now) (term_answer s.now t.now)) (solved_side (may_solve self.now) s.now t.now ≡ None) }
    {
        match s.base() {
            Some(var) => var.sort == Sort::Int && self.has(var) && t.base() != Some(var),
            None => false,
        }
    }

    fn solves_set(&self, s: &SetTerm, t: &SetTerm) -> bool
        ensures { MatchBool result (IsAnswer (solved_set (may_solve self.now) s.now t.now) (set_answer s.now t.now)) (solved_set (may_solve self.now) s.now t.now ≡ None) }
    {
        match (s.vars(), s.elems()) {
            ([var], []) => self.has(*var) && !is_among(*var, t.vars()),
            _ => false,
        }
    }

    fn side_of_terms(&self, s: &Term, t: &Term) -> Option<Side>
        ensures { MatchOption result (solved_eq (may_solve self.now) (Eq s.now t.now) ≡ None) (λ side. IsAnswer (solved_eq (may_solve self.now) (Eq s.now t.now)) (side_answer side (Eq s.now t.now))) }
    {
        if self.solves_term(s, t) {
            Some(Side::Left)
        } else if self.solves_term(t, s) {
            Some(Side::Right)
        } else {
            None
        }
    }

    fn side_of_sets(&self, s: &SetTerm, t: &SetTerm) -> Option<Side>
        ensures { MatchOption result (solved_any (may_solve self.now) (Same s.now t.now) ≡ None) (λ side. IsAnswer (solved_any (may_solve self.now) (Same s.now t.now)) (side_answer side (Same s.now t.now))) }
    {
        if self.solves_set(s, t) {
            Some(Side::Left)
        } else if self.solves_set(t, s) {
            Some(Side::Right)
        } else {
            None
        }
    }

    /// The side for which the literal is solved, the left one first.
    fn side(&self, lit: &Lit) -> Option<Side>
        ensures { MatchOption result (solves self.now lit.now ≡ None) (λ side. IsAnswer (solves self.now lit.now) (side_answer side lit.now)) }
    {
        match (self, lit) {
            (_, Lit::Eq(s, t)) => self.side_of_terms(s, t),
            (Unknowns::Existential(_), Lit::Same(s, t)) => self.side_of_sets(s, t),
            _ => None,
        }
    }

    /// The place of the first literal that is solved, and the side.
    pub(crate) fn first(&self, lits: &[Lit]) -> Option<(usize, Side)>
        ensures { FirstBy (solves self.now) lits.now result }
    {
        for place in 0..lits.len() {
            if let Some(side) = self.side(&lits[place]) {
                return Some((place, side));
            }
        }
        None
    }
}

/// The offsets of a set term's elements are in range.
fn narrow(set: &SetTerm)
    ensures { wide_set set.now ≡ false }
{
    for elem in set.elems() {
        let _offset = elem.offset();
    }
}

fn solve_term(alloc: Global, s: Term, t: Term) -> Result<Subst, Fail<TooLarge>>
    requires { IsTrue (is_some (term_answer s t)) }
    ensures { Solves (term_answer s t) result }
{
    let Some(var) = s.base() else { unreachable!() };
    let Ok(to) = t.plus(-s.offset()) else {
        return Err(Fail::Named(TooLarge));
    };
    let ints = vec![in alloc; IntBind { var, to }]?;
    Ok(Subst {
        ints: List::from_vec(ints),
        sets: List::from_vec(Vec::new(alloc)),
    })
}

fn solve_set(alloc: Global, s: &SetTerm, t: SetTerm) -> Result<Subst, NoMemory>
    requires { IsTrue (is_some (set_answer s.now t)) }
    ensures gives { IfOk result (λ by. set_answer s.now t ≡ Some by) }
    ensures narrow { IfOk result (λ by. wide_subst by ≡ false) }
{
    let ([var], []) = (s.vars(), s.elems()) else {
        unreachable!()
    };
    narrow(&t);
    let sets = vec![in alloc; SetBind { var: *var, to: t }]?;
    Ok(Subst {
        ints: List::from_vec(Vec::new(alloc)),
        sets: List::from_vec(sets),
    })
}

/// What the equation gives, solved for this side. It is `TooLarge` exactly where an offset passes
/// 2^32 in size.
pub(crate) fn solve_for(alloc: Global, lit: Lit, side: Side) -> Result<Subst, Fail<TooLarge>>
    requires { IsTrue (is_some (side_answer side lit)) }
    ensures { Solves (side_answer side lit) result }
{
    match lit {
        Lit::Eq(s, t) => match side {
            Side::Left => solve_term(alloc, s, t),
            Side::Right => solve_term(alloc, t, s),
        },
        Lit::Same(s, t) => match side {
            Side::Left => Ok(solve_set(alloc, &s, t)?),
            Side::Right => Ok(solve_set(alloc, &t, s)?),
        },
        _ => unreachable!(),
    }
}
