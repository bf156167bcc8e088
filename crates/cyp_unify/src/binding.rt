//! The match of a finished walk.

ghost use Rattle.std.specs.Prelude.{◌≡◌, ◌++◌, IfOk, false, map};
ghost use Rattle.std.specs.List.{list_any};
ghost use Rattle.cyp_term.specs.Terms.{wide_lit, wide_subst};
ghost use Rattle.cyp_term.specs.Answers.{GivesUnless};
ghost use Rattle.cyp_unify.specs.Matches.{all_bound, bound_by_map, finish_match};
ghost use Rattle.cyp_unify.specs.Meeting.{Binds, int_bound, late_lit, set_bound};

use crate::found::Match;
use crate::vars::vars_to_bind;
use crate::walk::{Walk, narrow_set, narrow_term};
use cyp_heap::Link;
use cyp_term::{
    Copied, Fail, IntBind, List, Lit, NoMemory, SetBind, SetTerm, Sort, Subst, TooWide, Var,
};
use std::alloc::Global;

/// Binds a variable of integers by its image in the map, unless it is bound. Answers whether it is
/// bound now.
fn bind_int(alloc: Global, by: &mut Subst, map: &Subst, var: Var) -> Result<bool, NoMemory>
    requires { wide_subst by.old ≡ false }
    ensures { IfOk result (Binds (int_bound map.now by.old var) by.new) }
{
    if by.image(var).is_some() {
        return Ok(true);
    }
    let Some(to) = map.image(var) else {
        return Ok(false);
    };
    narrow_term(to);
    by.ints.push(alloc, IntBind { var, to })?;
    Ok(true)
}

/// The same for a variable of sets.
fn bind_set(alloc: Global, by: &mut Subst, map: &Subst, var: Var) -> Result<bool, NoMemory>
    requires { wide_subst by.old ≡ false }
    ensures { IfOk result (Binds (set_bound map.now by.old var) by.new) }
{
    if by.set_image(var).is_some() {
        return Ok(true);
    }
    let Some(image) = map.set_image(var) else {
        return Ok(false);
    };
    narrow_set(image);
    let to = image.copy(alloc)?;
    by.sets.push(alloc, SetBind { var, to })?;
    Ok(true)
}

fn bind(alloc: Global, by: &mut Subst, map: &Subst, var: Var) -> Result<bool, NoMemory>
    requires { wide_subst by.old ≡ false }
    ensures { IfOk result (Binds (bound_by_map map.now by.old var) by.new) }
{
    match var.sort {
        Sort::Set => bind_set(alloc, by, map, var),
        Sort::Int | Sort::Card => bind_int(alloc, by, map, var),
    }
}

/// Binds each of the variables that isn't bound by its image in the map. Answers whether all are
/// bound now.
fn bind_all(alloc: Global, by: &mut Subst, map: &Subst, vars: &[Var]) -> Result<bool, NoMemory>
    requires { wide_subst by.old ≡ false }
    ensures { IfOk result (Binds (all_bound map.now by.old vars.now) by.new) }
{
    for var in vars {
        if !bind(alloc, by, map, *var)? {
            return Ok(false);
        }
    }
    Ok(true)
}

fn late_lit(alloc: Global, from: &SetTerm, to: &SetTerm, by: &Subst) -> Result<Lit, Fail<TooWide>>
    ensures { GivesUnless (wide_lit (late_lit by.now (from.now, to.now))) (late_lit by.now (from.now, to.now)) result }
{
    narrow_set(to);
    let from = from.apply(alloc, by)?;
    Ok(Lit::Same(from, to.copy(alloc)?))
}

/// The literals, and the equalities that waited.
fn with_late(
    alloc: Global,
    mut need: List<Lit>,
    late: &[(SetTerm, SetTerm)],
    by: &Subst,
) -> Result<List<Lit>, Fail<TooWide>>
    requires { list_any wide_lit need ≡ false }
    ensures { GivesUnless (list_any wide_lit (need ++ map (late_lit by.now) late.now)) (need ++ map (late_lit by.now) late.now) result }
{
    for (from, to) in late {
        need.push(alloc, late_lit(alloc, from, to, by)?)?;
    }
    Ok(need)
}

impl Walk {
    /// The match of these pairs, once each variable of the companion is bound. There is none where
    /// one has no image, or an offset passes 2^32 in size.
    pub(crate) fn finish(
        self,
        alloc: Global,
        link: &Link,
        pairs: &[u8],
    ) -> Result<Option<Match>, NoMemory>
        ensures { IfOk result (λ m. m ≡ finish_match link.now pairs.now self) }
    {
        let vars = vars_to_bind(alloc, link)?;
        let pairs = List::from_vec(Vec::from_slice(alloc, pairs)?);
        let Walk {
            mut by,
            need,
            late,
            mends,
        } = self;
        if !bind_all(alloc, &mut by, &link.map, vars.as_slice())? {
            return Ok(None);
        }
        match with_late(alloc, need, late.as_slice(), &by) {
            Ok(need) => Ok(Some(Match {
                pairs,
                by,
                need,
                mends,
            })),
            Err(Fail::Named(TooWide)) => Ok(None),
            Err(Fail::NoMemory) => Err(NoMemory),
        }
    }
}
