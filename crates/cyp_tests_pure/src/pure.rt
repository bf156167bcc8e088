use cyp_pure::{entails, fits, satisfiable};
use cyp_term::{List, Lit, SetTerm, Sort, Term, Var};
use std::alloc::Global;
use std::test::Fail;

/// A literal, of integer variables and sets by their numbers.
#[derive(Clone, Copy)]
enum Says {
    /// The first integer is at least this number.
    AtLeast(u8, u8),
    /// The first integer is at most this number.
    AtMost(u8, u8),
    IsNot(u8, u8),
    Equal(u8, u8),
    Less(u8, u8),
    In(u8, u8),
    NotIn(u8, u8),
    Within(u8, u8),
    Same(u8, u8),
    NotSame(u8, u8),
    /// The first set is that of the integer alone.
    Holds(u8, u8),
    /// The first set is the integer and the last set together.
    Adds(u8, u8, u8),
}

fn number(offset: u8) -> Term {
    Term::new(None, i64::from(offset))
}

fn int(number: u8) -> Term {
    Term::new(
        Some(Var {
            sort: Sort::Int,
            number,
        }),
        0,
    )
}

fn card(number: u8) -> Term {
    Term::new(
        Some(Var {
            sort: Sort::Card,
            number,
        }),
        0,
    )
}

fn elems_of(alloc: Global, elem: Option<u8>) -> Result<List<Term>, Fail> {
    let mut elems = Vec::new(alloc);
    if let Some(number) = elem {
        elems.push(int(number))?;
    }
    Ok(List::from_vec(elems))
}

fn single(alloc: Global, elem: u8) -> Result<SetTerm, Fail> {
    let elems = elems_of(alloc, Some(elem))?;
    Ok(SetTerm::new(List::from_vec(Vec::new(alloc)), elems))
}

fn with(alloc: Global, elem: Option<u8>, number: u8) -> Result<SetTerm, Fail> {
    let elems = elems_of(alloc, elem)?;
    let mut vars = Vec::new(alloc);
    vars.push(Var {
        sort: Sort::Set,
        number,
    })?;
    Ok(SetTerm::new(List::from_vec(vars), elems))
}

fn set(alloc: Global, number: u8) -> Result<SetTerm, Fail> {
    with(alloc, None, number)
}

fn set_lit(alloc: Global, says: Says) -> Result<Lit, Fail> {
    Ok(match says {
        Says::In(x, s) => Lit::Member(int(x), set(alloc, s)?),
        Says::NotIn(x, s) => Lit::NotMember(int(x), set(alloc, s)?),
        Says::Within(s, t) => Lit::Sub(set(alloc, s)?, set(alloc, t)?),
        Says::Same(s, t) => Lit::Same(set(alloc, s)?, set(alloc, t)?),
        Says::NotSame(s, t) => Lit::NotSame(set(alloc, s)?, set(alloc, t)?),
        Says::Holds(s, x) => Lit::Same(set(alloc, s)?, single(alloc, x)?),
        Says::Adds(s, x, t) => Lit::Same(set(alloc, s)?, with(alloc, Some(x), t)?),
        _ => return Err(Fail::new("a literal of integers")),
    })
}

fn lit(alloc: Global, says: Says) -> Result<Lit, Fail> {
    match says {
        Says::AtLeast(x, n) => Ok(Lit::Le(number(n), int(x))),
        Says::AtMost(x, n) => Ok(Lit::Le(int(x), number(n))),
        Says::IsNot(x, n) => Ok(Lit::Ne(int(x), number(n))),
        Says::Equal(x, y) => Ok(Lit::Eq(int(x), int(y))),
        Says::Less(x, y) => Ok(Lit::Lt(int(x), int(y))),
        _ => set_lit(alloc, says),
    }
}

fn lits(alloc: Global, all: &[Says]) -> Result<Vec<Lit>, Fail> {
    let mut lits = Vec::new(alloc);
    for says in all {
        lits.push(lit(alloc, *says)?)?;
    }
    Ok(lits)
}

/// Whether the literals are satisfiable, where they fit.
fn can_be(alloc: Global, all: &[Says]) -> Result<bool, Fail> {
    let all = lits(alloc, all)?;
    if !fits(alloc, all.as_slice(), &[])? {
        return Err(Fail::new("beyond the limits"));
    }
    Ok(satisfiable(alloc, all.as_slice())?)
}

/// Whether the first literals entail the others, where they fit.
fn shows(alloc: Global, given: &[Says], wanted: &[Says]) -> Result<bool, Fail> {
    let given = lits(alloc, given)?;
    let wanted = lits(alloc, wanted)?;
    if !fits(alloc, given.as_slice(), wanted.as_slice())? {
        return Err(Fail::new("beyond the limits"));
    }
    Ok(entails(alloc, given.as_slice(), wanted.as_slice())?)
}

#[test]
fn adds_nothing_by_a_member(rt: HostRuntime) -> Result<(), Fail> {
    let alloc = rt.alloc();
    let member = [Says::In(0, 0)];
    let same = [Says::Adds(0, 0, 0)];
    assert!(rt; shows(alloc, &member, &same)?);
    assert!(rt; !shows(alloc, &[], &same)?);
    assert!(rt; shows(alloc, &same, &member)?);
    Ok(())
}

#[test]
fn decides_integers_alone(rt: HostRuntime) -> Result<(), Fail> {
    let alloc = rt.alloc();
    let all = [
        Says::AtLeast(0, 1),
        Says::AtMost(0, 2),
        Says::IsNot(0, 1),
        Says::IsNot(0, 2),
    ];
    assert!(rt; !can_be(alloc, &all)?);
    assert!(rt; can_be(alloc, &all[..3])?);
    assert!(rt; shows(alloc, &all[..3], &[Says::AtLeast(0, 2)])?);
    assert!(rt; shows(alloc, &all, &[Says::Less(0, 0)])?);
    Ok(())
}

#[test]
fn finds_members_of_a_single_set_equal(rt: HostRuntime) -> Result<(), Fail> {
    let alloc = rt.alloc();
    let given = [Says::Holds(0, 2), Says::In(0, 0), Says::In(1, 0)];
    let equal = [Says::Equal(0, 1)];
    assert!(rt; shows(alloc, &given, &equal)?);
    assert!(rt; !shows(alloc, &given[1..], &equal)?);
    Ok(())
}

#[test]
fn finds_the_members_of_a_part(rt: HostRuntime) -> Result<(), Fail> {
    let alloc = rt.alloc();
    let given = [Says::Adds(0, 0, 1), Says::Holds(1, 1)];
    assert!(rt; shows(alloc, &given, &[Says::In(0, 0), Says::In(1, 0)])?);
    assert!(rt; !shows(alloc, &given, &[Says::In(0, 1)])?);
    Ok(())
}

#[test]
fn finds_sets_in_each_other_the_same(rt: HostRuntime) -> Result<(), Fail> {
    let alloc = rt.alloc();
    let all = [Says::Within(0, 1), Says::Within(1, 0), Says::NotSame(0, 1)];
    assert!(rt; !shows(alloc, &all[..1], &all[1..2])?);
    assert!(rt; !can_be(alloc, &all)?);
    assert!(rt; can_be(alloc, &all[1..])?);
    assert!(rt; shows(alloc, &all[..2], &[Says::Same(1, 0)])?);
    Ok(())
}

/// One integer is a member and the other isn't, so they differ.
#[test]
fn tells_integers_apart_by_sets(rt: HostRuntime) -> Result<(), Fail> {
    let alloc = rt.alloc();
    let all = [Says::In(0, 0), Says::NotIn(1, 0), Says::Equal(0, 1)];
    assert!(rt; can_be(alloc, &all[..2])?);
    assert!(rt; !can_be(alloc, &all)?);
    assert!(rt; !shows(alloc, &all[..2], &[Says::Less(0, 1)])?);
    Ok(())
}

/// The second integer is 2 and a member, and the first one, 1 or 2, isn't: it is 1.
#[test]
fn finds_the_integer_that_is_left(rt: HostRuntime) -> Result<(), Fail> {
    let alloc = rt.alloc();
    let given = [
        Says::In(1, 0),
        Says::NotIn(0, 0),
        Says::AtLeast(0, 1),
        Says::AtMost(0, 2),
        Says::AtLeast(1, 2),
        Says::AtMost(1, 2),
    ];
    assert!(rt; shows(alloc, &given, &[Says::AtMost(0, 1)])?);
    assert!(rt; !shows(alloc, &given[1..], &[Says::AtMost(0, 1)])?);
    Ok(())
}

#[test]
fn asks_for_each_literal_on_the_right(rt: HostRuntime) -> Result<(), Fail> {
    let alloc = rt.alloc();
    let given = [Says::Less(0, 1), Says::In(0, 0)];
    let wanted = [
        Says::Less(0, 1),
        Says::Adds(0, 0, 0),
        Says::Within(0, 0),
        Says::In(1, 0),
    ];
    assert!(rt; shows(alloc, &given, &wanted[..3])?);
    assert!(rt; !shows(alloc, &given, &wanted)?);
    assert!(rt; shows(alloc, &given, &[])?);
    Ok(())
}

/// So many element terms.
fn members(alloc: Global, count: u8) -> Result<Vec<Lit>, Fail> {
    let mut lits = Vec::new(alloc);
    for k in 0..count {
        lits.push(lit(alloc, Says::In(k, 0))?)?;
    }
    Ok(lits)
}

#[test]
fn fits_six_element_terms(rt: HostRuntime) -> Result<(), Fail> {
    let alloc = rt.alloc();
    let six = members(alloc, 6)?;
    let seven = members(alloc, 7)?;
    assert!(rt; fits(alloc, six.as_slice(), six.as_slice())?);
    assert!(rt; !fits(alloc, seven.as_slice(), &[])?);
    assert!(rt; !fits(alloc, &[], seven.as_slice())?);
    Ok(())
}

/// So many integers, and a cardinality.
fn below(alloc: Global, count: u8) -> Result<Vec<Lit>, Fail> {
    let mut lits = Vec::new(alloc);
    for k in 0..count {
        lits.push(Lit::Lt(int(k), card(0)))?;
    }
    Ok(lits)
}

/// The variable of a cardinality counts as one of an integer.
#[test]
fn fits_thirty_two_numbers(rt: HostRuntime) -> Result<(), Fail> {
    let alloc = rt.alloc();
    let most = below(alloc, 31)?;
    let over = below(alloc, 32)?;
    assert!(rt; fits(alloc, most.as_slice(), &[])?);
    assert!(rt; !fits(alloc, over.as_slice(), &[])?);
    assert!(rt; !fits(alloc, most.as_slice(), &[Lit::Le(int(0), int(40))])?);
    Ok(())
}

/// So many sets, each in the next.
fn chain(alloc: Global, count: u8) -> Result<Vec<Lit>, Fail> {
    let mut lits = Vec::new(alloc);
    for k in 1..count {
        lits.push(lit(alloc, Says::Within(k - 1, k))?)?;
    }
    Ok(lits)
}

#[test]
fn fits_twelve_sets(rt: HostRuntime) -> Result<(), Fail> {
    let alloc = rt.alloc();
    let twelve = chain(alloc, 12)?;
    let thirteen = chain(alloc, 13)?;
    let ends = lits(alloc, &[Says::Within(0, 11)])?;
    assert!(rt; fits(alloc, twelve.as_slice(), ends.as_slice())?);
    assert!(rt; entails(alloc, twelve.as_slice(), ends.as_slice())?);
    assert!(rt; !fits(alloc, thirteen.as_slice(), &[])?);
    Ok(())
}

/// That an integer isn't above itself, so often.
fn repeated(alloc: Global, count: usize) -> Result<Vec<Lit>, Fail> {
    let mut lits = Vec::new(alloc);
    for _ in 0..count {
        lits.push(Lit::Le(int(0), int(0)))?;
    }
    Ok(lits)
}

#[test]
fn fits_sixty_four_literals_on_the_right(rt: HostRuntime) -> Result<(), Fail> {
    let alloc = rt.alloc();
    let most = repeated(alloc, 64)?;
    let over = repeated(alloc, 65)?;
    assert!(rt; fits(alloc, over.as_slice(), most.as_slice())?);
    assert!(rt; !fits(alloc, &[], over.as_slice())?);
    Ok(())
}
