ghost use Rattle.std.specs.Prelude.{◌≤◌, None, length};
ghost use Rattle.cyp_term.specs.TermValue.{IsTerm};

use cyp_diff::{Value, are_ints, solve, solve_with, variables_of};
use cyp_term::{List, Lit, SetTerm, Sort, Term, Var};
use std::alloc::Global;
use std::test::Fail;

/// Whether `solve` may be called.
fn may_solve(alloc: Global, lits: &[Lit]) -> Result<bool, Fail> {
    if !are_ints(lits) {
        return Ok(false);
    }
    Ok(variables_of(alloc, lits)?.len() <= 32)
}

/// The answer for any literals: an error where `solve` may not be called.
fn answer(alloc: Global, lits: &[Lit]) -> Result<Option<List<Value>>, Fail> {
    if !are_ints(lits) {
        return Err(Fail::new("not all compare integers"));
    }
    if variables_of(alloc, lits)?.len() > 32 {
        return Err(Fail::new("too many variables"));
    }
    Ok(solve(alloc, lits)?)
}

fn number(offset: i64) -> Term
    requires { IsTerm None offset }
{
    Term::new(None, offset)
}

fn int(number: u8) -> Term {
    int_plus(number, 0)
}

fn int_plus(number: u8, offset: i64) -> Term
    requires { IsTerm None offset }
{
    let var = Var {
        sort: Sort::Int,
        number,
    };
    Term::new(Some(var), offset)
}

fn card(number: u8) -> Term {
    let var = Var {
        sort: Sort::Card,
        number,
    };
    Term::new(Some(var), 0)
}

/// Whether the answer is an integer from 1 to `most` for each of so many variables, all of them different.
fn is_spread(values: &[Value], count: usize, most: i64) -> bool {
    let in_range = values.iter().all(|v| v.value >= 1 && v.value <= most);
    let different = (0..values.len()).all(|i| (0..i).all(|j| values[i].value != values[j].value));
    values.len() == count && in_range && different
}

/// So many variables from `least` to `most`, pairwise different.
fn spread(alloc: Global, count: u8, least: i64, most: i64) -> Result<Vec<Lit>, Fail>
    requires least { IsTerm None least }
    requires most { IsTerm None most }
{
    let mut lits = Vec::new(alloc);
    for i in 0..count {
        lits.push(Lit::Le(number(least), int(i)))?;
        lits.push(Lit::Le(int(i), number(most)))?;
        for j in 0..i {
            lits.push(Lit::Ne(int(i), int(j)))?;
        }
    }
    Ok(lits)
}

/// So many positive variables, pairwise different, none of them bounded from above but the first, by the second.
fn crowd(alloc: Global, count: u8) -> Result<Vec<Lit>, Fail> {
    let mut lits = vec![in alloc; Lit::Le(int(0), int(1))]?;
    for i in 0..count {
        lits.push(Lit::Lt(number(0), int(i)))?;
        for j in 0..i {
            lits.push(Lit::Ne(int(i), int(j)))?;
        }
    }
    Ok(lits)
}

fn third_is_below_second(values: &[Value]) -> bool {
    match values {
        [_, second, third, ..] => third.value < second.value,
        _ => false,
    }
}

/// Integers far apart are found at once, and not by the orders of each two.
#[test]
fn keeps_a_crowd_apart(rt: HostRuntime) -> Result<(), Fail> {
    let alloc = rt.alloc();
    let lits = crowd(alloc, 32)?;
    let values = answer(alloc, lits.as_slice())?.ok_or("no solution")?;
    assert!(rt; is_spread(values.as_slice(), 32, i64::MAX));
    assert!(rt; third_is_below_second(values.as_slice()));
    Ok(())
}

#[test]
fn solves_in_a_range(rt: HostRuntime) -> Result<(), Fail> {
    let alloc = rt.alloc();
    let none = [
        Lit::Le(number(1), int(0)),
        Lit::Le(int(0), number(2)),
        Lit::Ne(int(0), number(1)),
        Lit::Ne(int(0), number(2)),
    ];
    assert!(rt; answer(alloc, &none)?.is_none());
    let three = spread(alloc, 4, 1, 3)?;
    assert!(rt; answer(alloc, three.as_slice())?.is_none());
    let most = spread(alloc, 4, 1, 4)?;
    let values = answer(alloc, most.as_slice())?.ok_or("no solution")?;
    assert!(rt; is_spread(values.as_slice(), 4, 4));
    let nothing = answer(alloc, &[])?.ok_or("no solution")?;
    assert_eq!(rt; nothing.len(), 0);
    Ok(())
}

/// Twelve variables want twelve integers, and a range loses an end that none of them may be.
#[test]
fn spreads_twelve_over_twelve(rt: HostRuntime) -> Result<(), Fail> {
    let alloc = rt.alloc();
    let eleven = spread(alloc, 12, -4, 6)?;
    assert!(rt; answer(alloc, eleven.as_slice())?.is_none());
    let mut twelve = spread(alloc, 12, 1, 12)?;
    let values = answer(alloc, twelve.as_slice())?.ok_or("no solution")?;
    assert!(rt; is_spread(values.as_slice(), 12, 12));
    for i in 0..12 {
        twelve.push(Lit::Ne(int(i), number(1)))?;
    }
    assert!(rt; answer(alloc, twelve.as_slice())?.is_none());
    Ok(())
}

#[test]
fn solves_at_the_widest_offsets(rt: HostRuntime) -> Result<(), Fail> {
    let alloc = rt.alloc();
    let wide = 1 << 32;
    let mut lits = Vec::new(alloc);
    lits.push(Lit::Eq(number(wide), int(0)))?;
    lits.push(Lit::Le(int_plus(0, wide), int_plus(1, -wide)))?;
    lits.push(Lit::Le(int_plus(1, -wide), int_plus(0, wide)))?;
    let values = answer(alloc, lits.as_slice())?.ok_or("no solution")?;
    assert_eq!(rt; values.len(), 2);
    assert_eq!(rt; value_at(&values, 0)?, wide);
    assert_eq!(rt; value_at(&values, 1)?, 3 * wide);
    lits.push(Lit::Ne(int_plus(1, -wide), int_plus(0, wide)))?;
    assert!(rt; answer(alloc, lits.as_slice())?.is_none());
    Ok(())
}

/// A cardinality and an integer of the same number are two variables, and nothing is known of either.
#[test]
fn solves_cardinalities_as_integers(rt: HostRuntime) -> Result<(), Fail> {
    let alloc = rt.alloc();
    let lits = [Lit::Lt(int(0), card(0)), Lit::Lt(card(0), number(-7))];
    let values = answer(alloc, &lits)?.ok_or("no solution")?;
    assert_eq!(rt; values.len(), 2);
    let first = values.as_slice()[0];
    let second = values.as_slice()[1];
    assert_eq!(rt; first.var.sort, Sort::Int);
    assert_eq!(rt; second.var.sort, Sort::Card);
    assert!(rt; first.value < second.value && second.value < -7);
    let same = [Lit::Eq(card(3), card(4)), Lit::Ne(card(4), card(3))];
    assert!(rt; answer(alloc, &same)?.is_none());
    Ok(())
}

fn value_at(values: &List<Value>, k: usize) -> Result<i64, Fail> {
    let value = values.as_slice().get(k).ok_or("no such value")?;
    Ok(value.value)
}

/// The first of 32 variables is the greatest offset, and each other is twice that above the one before.
fn widest_chain(alloc: Global) -> Result<Vec<Lit>, Fail> {
    let wide = 1 << 32;
    let mut lits = Vec::new(alloc);
    lits.push(Lit::Eq(number(wide), int(0)))?;
    for i in 1..32 {
        lits.push(Lit::Eq(int_plus(i - 1, wide), int_plus(i, -wide)))?;
    }
    Ok(lits)
}

#[test]
fn sums_up_the_longest_chain_at_the_widest_offsets(rt: HostRuntime) -> Result<(), Fail> {
    let alloc = rt.alloc();
    let wide = 1 << 32;
    let lits = widest_chain(alloc)?;
    let values = answer(alloc, lits.as_slice())?.ok_or("no solution")?;
    assert_eq!(rt; values.len(), 32);
    assert_eq!(rt; value_at(&values, 0)?, wide);
    assert_eq!(rt; value_at(&values, 31)?, 63 * wide);
    Ok(())
}

/// Each variable above the one before.
fn rising(alloc: Global, count: u8) -> Result<Vec<Lit>, Fail> {
    let mut lits = Vec::new(alloc);
    for i in 1..count {
        lits.push(Lit::Lt(int(i - 1), int(i)))?;
    }
    Ok(lits)
}

#[test]
fn solves_thirty_two_variables_and_no_more(rt: HostRuntime) -> Result<(), Fail> {
    let alloc = rt.alloc();
    let mut lits = rising(alloc, 32)?;
    let values = answer(alloc, lits.as_slice())?.ok_or("no solution")?;
    assert_eq!(rt; values.len(), 32);
    lits.push(Lit::Le(int(31), int_plus(0, 31)))?;
    let values = answer(alloc, lits.as_slice())?.ok_or("no solution")?;
    let rise = value_at(&values, 31)?.wrapping_sub(value_at(&values, 0)?);
    assert_eq!(rt; rise, 31);
    lits.push(Lit::Ne(int_plus(0, 31), int(31)))?;
    assert!(rt; answer(alloc, lits.as_slice())?.is_none());
    let more = rising(alloc, 33)?;
    assert!(rt; !may_solve(alloc, more.as_slice())?);
    Ok(())
}

#[test]
fn knows_literals_of_sets(rt: HostRuntime) -> Result<(), Fail> {
    let alloc = rt.alloc();
    let none = List::from_vec(Vec::new(alloc));
    let set = SetTerm::new(none, List::from_vec(vec![in alloc; number(1)]?));
    let lits = [Lit::Le(number(0), int(0)), Lit::Member(int(0), set)];
    assert!(rt; are_ints(&lits[..1]));
    assert!(rt; !are_ints(&lits));
    assert!(rt; !may_solve(alloc, &lits)?);
    Ok(())
}

/// The answer for the literals before a place and those from it on, where the conditions hold.
fn answer_with(alloc: Global, lits: &[Lit], place: usize) -> Result<Option<List<Value>>, Fail>
    requires { place ≤ length lits.now }
{
    if !are_ints(lits) {
        return Err(Fail::new("not all compare integers"));
    }
    if variables_of(alloc, lits)?.len() > 32 {
        return Err(Fail::new("too many variables"));
    }
    Ok(solve_with(alloc, &lits[..place], &lits[place..])?)
}

#[test]
fn solves_both_lists_together(rt: HostRuntime) -> Result<(), Fail> {
    let alloc = rt.alloc();
    let both = [Lit::Le(number(1), int(0)), Lit::Le(int(0), number(0))];
    assert!(rt; answer_with(alloc, &both, 1)?.is_none());
    Ok(())
}
