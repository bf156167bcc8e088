ghost use Rattle.std.specs.Prelude.{◌≡◌};
ghost use Rattle.cyp_term.specs.declared.term.Sort.TheVariants.{Set};

use cyp_term::{IntBind, List, Lit, SetBind, SetTerm, Sort, Subst, Term, TooWide, Var};
use std::alloc::Global;
use std::test::Fail;

const WIDEST: i64 = 1 << 32;

const X: Var = Var {
    sort: Sort::Int,
    number: 0,
};

const Y: Var = Var {
    sort: Sort::Int,
    number: 1,
};

const N: Var = Var {
    sort: Sort::Card,
    number: 0,
};

fn number(offset: i32) -> Term {
    Term::new(None, offset as i64)
}

fn x(offset: i32) -> Term {
    Term::new(Some(X), offset as i64)
}

fn y(offset: i32) -> Term {
    Term::new(Some(Y), offset as i64)
}

fn n(offset: i32) -> Term {
    Term::new(Some(N), offset as i64)
}

fn most_above_y() -> Term {
    Term::new(Some(Y), WIDEST)
}

fn most_below_y() -> Term {
    Term::new(Some(Y), -WIDEST)
}

fn set(number: u8) -> Var
    ensures { result.sort ≡ Set }
{
    Var {
        sort: Sort::Set,
        number,
    }
}

fn elements(alloc: Global, elems: &[Term]) -> Result<SetTerm, Fail> {
    let elems = Vec::from_slice(alloc, elems)?;
    let vars = List::from_vec(Vec::new(alloc));
    Ok(SetTerm::new(vars, List::from_vec(elems)))
}

fn one_set(alloc: Global, a: u8, elems: &[Term]) -> Result<SetTerm, Fail> {
    let elems = Vec::from_slice(alloc, elems)?;
    let vars = Vec::from_slice(alloc, &[set(a)])?;
    Ok(SetTerm::new(List::from_vec(vars), List::from_vec(elems)))
}

fn two_sets(alloc: Global, a: u8, b: u8, elems: &[Term]) -> Result<SetTerm, Fail> {
    let elems = Vec::from_slice(alloc, elems)?;
    let vars = Vec::from_slice(alloc, &[set(a), set(b)])?;
    Ok(SetTerm::new(List::from_vec(vars), List::from_vec(elems)))
}

/// The substitution that binds variables to terms alone.
fn ints(alloc: Global, binds: &[IntBind]) -> Result<Subst, Fail> {
    let ints = Vec::from_slice(alloc, binds)?;
    Ok(Subst {
        ints: List::from_vec(ints),
        sets: List::from_vec(Vec::new(alloc)),
    })
}

/// The substitution that besides binds a set variable, in this order.
fn sets(alloc: Global, binds: &[IntBind], a: SetTerm, b: SetTerm) -> Result<Subst, Fail> {
    let mut by = ints(alloc, binds)?;
    let (var, to) = (set(0), a);
    by.sets.push(alloc, SetBind { var, to })?;
    let (var, to) = (set(0), b);
    by.sets.push(alloc, SetBind { var, to })?;
    Ok(by)
}

#[test]
fn replaces_a_bound_variable_by_its_image(rt: HostRuntime) -> Result<(), Fail> {
    let alloc = rt.alloc();
    let by = ints(
        alloc,
        &[IntBind { var: X, to: y(2) }, IntBind { var: N, to: y(1) }],
    )?;
    let lit = Lit::Eq(x(0), number(1));
    assert_eq!(rt; lit.apply(alloc, &by)?, Lit::Eq(y(2), number(1)));
    let lit = Lit::Lt(n(0), y(0));
    assert_eq!(rt; lit.apply(alloc, &by)?, Lit::Lt(y(1), y(0)));
    let single = elements(alloc, &[x(0)])?;
    assert_eq!(rt; single.apply(alloc, &by)?, elements(alloc, &[y(2)])?);
    Ok(())
}

#[test]
fn takes_the_first_entry_of_a_variable(rt: HostRuntime) -> Result<(), Fail> {
    let alloc = rt.alloc();
    let binds = [
        IntBind {
            var: X,
            to: number(1),
        },
        IntBind {
            var: X,
            to: number(2),
        },
    ];
    let by = sets(
        alloc,
        &binds,
        one_set(alloc, 1, &[])?,
        one_set(alloc, 2, &[])?,
    )?;
    assert_eq!(rt; by.image(X), Some(number(1)));
    assert_eq!(rt; by.image(Y), None);
    assert_eq!(rt; x(5).apply(&by), Ok(number(6)));
    let bound = one_set(alloc, 0, &[])?;
    assert_eq!(rt; bound.apply(alloc, &by)?, one_set(alloc, 1, &[])?);
    assert!(rt; by.set_image(set(1)).is_none());
    Ok(())
}

#[test]
fn keeps_offsets_in_range(rt: HostRuntime) -> Result<(), Fail> {
    let alloc = rt.alloc();
    let by = ints(
        alloc,
        &[IntBind {
            var: X,
            to: most_above_y(),
        }],
    )?;
    assert_eq!(rt; x(0).apply(&by), Ok(most_above_y()));
    assert_eq!(rt; x(1).apply(&by), Err(TooWide));
    let by = ints(
        alloc,
        &[IntBind {
            var: X,
            to: most_below_y(),
        }],
    )?;
    assert_eq!(rt; x(0).apply(&by), Ok(most_below_y()));
    assert_eq!(rt; x(-1).apply(&by), Err(TooWide));
    Ok(())
}

#[test]
fn refuses_an_offset_past_the_range(rt: HostRuntime) -> Result<(), Fail> {
    let alloc = rt.alloc();
    let by = ints(
        alloc,
        &[IntBind {
            var: X,
            to: most_above_y(),
        }],
    )?;
    let lit = Lit::Eq(x(1), number(1));
    assert_eq!(rt; lit.apply(alloc, &by), Err(cyp_term::Fail::Named(TooWide)));
    let single = elements(alloc, &[x(1)])?;
    assert_eq!(rt;
        single.apply(alloc, &by),
        Err(cyp_term::Fail::Named(TooWide))
    );
    Ok(())
}

#[test]
fn puts_each_part_of_a_union_once(rt: HostRuntime) -> Result<(), Fail> {
    let alloc = rt.alloc();
    let image = one_set(alloc, 1, &[y(0)])?;
    let by = sets(
        alloc,
        &[IntBind { var: X, to: y(0) }],
        image,
        elements(alloc, &[])?,
    )?;
    let both = one_set(alloc, 0, &[x(0)])?;
    assert_eq!(rt; both.apply(alloc, &by)?, one_set(alloc, 1, &[y(0)])?);
    Ok(())
}

/// With more elements than are compared with each other.
#[test]
fn puts_each_of_many_elements_once(rt: HostRuntime) -> Result<(), Fail> {
    let alloc = rt.alloc();
    let by = ints(alloc, &[IntBind { var: X, to: y(1) }])?;
    let many = [
        x(0),
        y(1),
        x(1),
        y(2),
        x(2),
        y(4),
        x(3),
        number(4),
        y(0),
        number(4),
    ];
    let once = [y(1), y(2), y(3), y(4), number(4), y(0)];
    let union = elements(alloc, &many)?;
    assert_eq!(rt; union.apply(alloc, &by)?, elements(alloc, &once)?);
    Ok(())
}

/// The images' elements stand before the union's own, and an unbound variable in its place.
#[test]
fn puts_what_images_bring_first(rt: HostRuntime) -> Result<(), Fail> {
    let alloc = rt.alloc();
    let image = one_set(alloc, 1, &[number(1), n(0)])?;
    let by = sets(
        alloc,
        &[IntBind { var: X, to: y(0) }],
        image,
        elements(alloc, &[])?,
    )?;
    let union = two_sets(alloc, 2, 0, &[x(0), number(1), number(2)])?;
    let wanted = two_sets(alloc, 2, 1, &[number(1), n(0), y(0), number(2)])?;
    assert_eq!(rt; union.apply(alloc, &by)?, wanted);
    Ok(())
}

fn is_negation(a: Lit, b: Lit) -> bool {
    a.negated() == b
}

#[test]
fn negates_comparisons_of_integers(rt: HostRuntime) {
    assert!(rt; is_negation(Lit::Eq(x(0), y(1)), Lit::Ne(x(0), y(1))));
    assert!(rt; is_negation(Lit::Ne(x(0), y(1)), Lit::Eq(x(0), y(1))));
    assert!(rt; is_negation(Lit::Le(x(0), y(1)), Lit::Lt(y(1), x(0))));
    assert!(rt; is_negation(Lit::Lt(x(0), y(1)), Lit::Le(y(1), x(0))));
}

fn same(alloc: Global) -> Result<Lit, Fail> {
    let a = elements(alloc, &[number(1)])?;
    Ok(Lit::Same(a, elements(alloc, &[number(2)])?))
}

fn not_same(alloc: Global) -> Result<Lit, Fail> {
    let a = elements(alloc, &[number(1)])?;
    Ok(Lit::NotSame(a, elements(alloc, &[number(2)])?))
}

#[test]
fn negates_equality_of_sets(rt: HostRuntime) -> Result<(), Fail> {
    let alloc = rt.alloc();
    assert!(rt; is_negation(same(alloc)?, not_same(alloc)?));
    assert!(rt; is_negation(not_same(alloc)?, same(alloc)?));
    Ok(())
}

fn sub(alloc: Global) -> Result<Lit, Fail> {
    let a = elements(alloc, &[number(1)])?;
    Ok(Lit::Sub(a, elements(alloc, &[number(2)])?))
}

fn not_sub(alloc: Global) -> Result<Lit, Fail> {
    let a = elements(alloc, &[number(1)])?;
    Ok(Lit::NotSub(a, elements(alloc, &[number(2)])?))
}

#[test]
fn negates_inclusion(rt: HostRuntime) -> Result<(), Fail> {
    let alloc = rt.alloc();
    assert!(rt; is_negation(sub(alloc)?, not_sub(alloc)?));
    assert!(rt; is_negation(not_sub(alloc)?, sub(alloc)?));
    Ok(())
}

fn member(alloc: Global) -> Result<Lit, Fail> {
    let a = elements(alloc, &[number(1)])?;
    Ok(Lit::Member(x(0), a))
}

fn not_member(alloc: Global) -> Result<Lit, Fail> {
    let a = elements(alloc, &[number(1)])?;
    Ok(Lit::NotMember(x(0), a))
}

#[test]
fn negates_membership(rt: HostRuntime) -> Result<(), Fail> {
    let alloc = rt.alloc();
    assert!(rt; is_negation(member(alloc)?, not_member(alloc)?));
    assert!(rt; is_negation(not_member(alloc)?, member(alloc)?));
    Ok(())
}
