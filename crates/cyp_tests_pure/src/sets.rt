ghost use Rattle.std.specs.Prelude.{◌≡◌, ◌≤◌, IfOk, IsTrue, length};
ghost use Rattle.cyp_term.specs.Integers.{is_int_lit};
ghost use Rattle.cyp_term.specs.Regions.{all_set_vars, all_terms};
ghost use Rattle.cyp_sets.specs.Asking.{AreSets};

use cyp_sets::{regions, regions_with, terms_of, vars_of};
use cyp_term::{List, Lit, SetTerm, Sort, Term, Var};
use std::alloc::Global;
use std::test::Fail;

fn is_int(lit: &Lit) -> bool
    ensures { result ≡ is_int_lit lit.now }
{
    match lit {
        Lit::Eq(_, _) | Lit::Ne(_, _) | Lit::Le(_, _) | Lit::Lt(_, _) => true,
        _ => false,
    }
}

fn are_sets(lits: &[Lit]) -> bool
    ensures { IsTrue result → AreSets lits.now }
{
    for k in 0..lits.len() {
        if is_int(&lits[k]) {
            return false;
        }
    }
    true
}

/// Whether the conditions of a question hold.
fn is_asked(alloc: Global, lits: &[Lit], classes: &[u8]) -> Result<bool, Fail>
    ensures sets { IfOk result (λ b. IsTrue b → AreSets lits.now) }
    ensures few_vars { IfOk result (λ b. IsTrue b → length (all_set_vars lits.now) ≤ 12) }
    ensures few_terms { IfOk result (λ b. IsTrue b → length (all_terms lits.now) ≤ 6) }
    ensures classes { IfOk result (λ b. IsTrue b → length classes.now ≡ length (all_terms lits.now)) }
{
    let vars = vars_of(alloc, lits, &[])?.len();
    let terms = terms_of(alloc, lits, &[])?.len();
    Ok(are_sets(lits) && vars <= 12 && terms <= 6 && classes.len() == terms)
}

/// The answer for all of the literals, where the conditions hold.
fn answer(alloc: Global, lits: &[Lit], classes: &[u8]) -> Result<bool, Fail> {
    if !is_asked(alloc, lits, classes)? {
        return Err(Fail::new("no question"));
    }
    Ok(regions(alloc, lits, classes)?)
}

/// The answer for the literals before the place and those from it on, where the conditions hold.
fn answer_with(alloc: Global, lits: &[Lit], place: usize, classes: &[u8]) -> Result<bool, Fail> {
    if place > lits.len() || !is_asked(alloc, lits, classes)? {
        return Err(Fail::new("no question"));
    }
    Ok(regions_with(alloc, &lits[..place], &lits[place..], classes)?)
}

/// The element that is the integer variable of this number.
fn elem(number: u8) -> Term {
    Term::new(
        Some(Var {
            sort: Sort::Int,
            number,
        }),
        0,
    )
}

/// The set variable of this number.
fn set(alloc: Global, number: u8) -> Result<SetTerm, Fail> {
    let mut vars = Vec::new(alloc);
    vars.push(Var {
        sort: Sort::Set,
        number,
    })?;
    Ok(SetTerm::new(List::from_vec(vars), List::from_vec(Vec::new(alloc))))
}

fn member(alloc: Global, number: u8, of: u8) -> Result<Lit, Fail> {
    Ok(Lit::Member(elem(number), set(alloc, of)?))
}

fn not_member(alloc: Global, number: u8, of: u8) -> Result<Lit, Fail> {
    Ok(Lit::NotMember(elem(number), set(alloc, of)?))
}

fn sub(alloc: Global, a: u8, b: u8) -> Result<Lit, Fail> {
    Ok(Lit::Sub(set(alloc, a)?, set(alloc, b)?))
}

fn not_sub(alloc: Global, a: u8, b: u8) -> Result<Lit, Fail> {
    Ok(Lit::NotSub(set(alloc, a)?, set(alloc, b)?))
}

/// `a in s`, and `not (b in s)`.
fn in_and_out(alloc: Global, a: u8, b: u8) -> Result<Vec<Lit>, Fail> {
    let mut lits = Vec::new(alloc);
    lits.push(member(alloc, a, 0)?)?;
    lits.push(not_member(alloc, b, 0)?)?;
    Ok(lits)
}

#[test]
fn decides_members_by_their_classes(rt: HostRuntime) -> Result<(), Fail> {
    let alloc = rt.alloc();
    let lits = in_and_out(alloc, 0, 1)?;
    assert!(rt; !answer(alloc, lits.as_slice(), &[0, 0])?);
    assert!(rt; answer(alloc, lits.as_slice(), &[0, 1])?);
    assert!(rt; answer(alloc, lits.as_slice(), &[7, 3])?);
    assert!(rt; answer(alloc, &[], &[])?);
    Ok(())
}

#[test]
fn decides_both_lists_together(rt: HostRuntime) -> Result<(), Fail> {
    let alloc = rt.alloc();
    let same = in_and_out(alloc, 0, 0)?;
    assert!(rt; !answer_with(alloc, same.as_slice(), 1, &[0])?);
    let two = in_and_out(alloc, 0, 1)?;
    assert!(rt; answer_with(alloc, two.as_slice(), 1, &[0, 1])?);
    assert!(rt; !answer_with(alloc, two.as_slice(), 1, &[2, 2])?);
    Ok(())
}

/// Twelve sets, each in the next.
fn chain(alloc: Global) -> Result<Vec<Lit>, Fail> {
    let mut lits = Vec::new(alloc);
    for k in 0..11 {
        lits.push(sub(alloc, k, k + 1)?)?;
    }
    Ok(lits)
}

#[test]
fn finds_a_member_of_the_first_of_twelve_sets_in_the_last(rt: HostRuntime) -> Result<(), Fail> {
    let alloc = rt.alloc();
    let mut lits = chain(alloc)?;
    lits.push(member(alloc, 0, 0)?)?;
    assert!(rt; answer(alloc, lits.as_slice(), &[0])?);
    lits.push(not_member(alloc, 0, 11)?)?;
    assert!(rt; !answer(alloc, lits.as_slice(), &[0])?);
    Ok(())
}

#[test]
fn finds_the_first_of_twelve_sets_within_the_last(rt: HostRuntime) -> Result<(), Fail> {
    let alloc = rt.alloc();
    let mut lits = chain(alloc)?;
    lits.push(not_sub(alloc, 11, 0)?)?;
    assert!(rt; answer(alloc, lits.as_slice(), &[])?);
    lits.push(not_sub(alloc, 0, 11)?)?;
    assert!(rt; !answer(alloc, lits.as_slice(), &[])?);
    Ok(())
}
