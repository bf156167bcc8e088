use cyp_lex::{Fault, FaultKind, tokens};
use cyp_names::{Scope, clause_scope, goal_scope, name_fault, universal_scope};
use cyp_term::{Fail, NoMemory};
use cyp_text::{TextTree, parse};
use std::alloc::Global;
use std::test::Fail as Failed;

/// The fault of names of a text of the grammar, or that of the grammar.
fn fault_of(alloc: Global, text: &[u8]) -> Result<Option<Fault>, NoMemory> {
    match judged(alloc, text) {
        Ok(fault) => Ok(fault),
        Err(Fail::Named(fault)) => Ok(Some(fault)),
        Err(Fail::NoMemory) => Err(NoMemory),
    }
}

fn judged(alloc: Global, text: &[u8]) -> Result<Option<Fault>, Fail<Fault>> {
    if text.len() > 65536 {
        return Ok(None);
    }
    let tokens = tokens(alloc, text)?;
    let tree = parse(alloc, text, tokens.as_slice())?;
    Ok(name_fault(alloc, &tree)?)
}

/// Adds the names of the scope to the text, each with a blank behind it.
fn add(text: &mut Vec<u8>, scope: &Scope<'_>) -> Result<(), NoMemory> {
    for named in scope.uses() {
        for byte in named.name().text.as_slice() {
            text.push(*byte)?;
        }
        text.push(b' ')?;
    }
    Ok(())
}

/// The names of each first clause, of the universal scope and of the goal.
fn scopes_of(alloc: Global, tree: &TextTree) -> Result<Vec<u8>, NoMemory> {
    let mut text = Vec::new(alloc);
    for pred in tree.preds.as_slice() {
        let preds = tree.preds.as_slice();
        let scope = clause_scope(alloc, preds, pred.params.as_slice(), &pred.first)?;
        add(&mut text, &scope)?;
    }
    add(&mut text, &universal_scope(alloc, tree)?)?;
    add(&mut text, &goal_scope(alloc, tree)?)?;
    Ok(text)
}

fn scopes_in(alloc: Global, text: &[u8]) -> Result<Vec<u8>, Fail<Fault>> {
    if text.len() > 65536 {
        return Ok(Vec::new(alloc));
    }
    let tokens = tokens(alloc, text)?;
    let tree = parse(alloc, text, tokens.as_slice())?;
    Ok(scopes_of(alloc, &tree)?)
}

/// The names of the scopes of a text of the grammar, or none.
fn names_of(alloc: Global, text: &[u8]) -> Result<Vec<u8>, NoMemory> {
    match scopes_in(alloc, text) {
        Ok(names) => Ok(names),
        Err(Fail::Named(_)) => Ok(Vec::new(alloc)),
        Err(Fail::NoMemory) => Err(NoMemory),
    }
}

fn at(kind: FaultKind, place: u32) -> Option<Fault> {
    Some(Fault { kind, place })
}

#[test]
fn a_name_is_declared_once(rt: HostRuntime) -> Result<(), Failed> {
    for (text, expected) in [
        (
            b"predicate p(loc x) { | x == 0 => { emp } } predicate p(loc x) { | x == 0 => { emp } } void f() { emp } { emp }".as_slice(),
            at(FaultKind::DuplicateName, 53),
        ),
        (
            b"predicate p(loc x, int x) { | x == 0 => { emp } } void f() { emp } { emp }",
            at(FaultKind::DuplicateName, 23),
        ),
        (
            b"void f(loc x, int y, loc x) { emp } { emp }",
            at(FaultKind::DuplicateName, 25),
        ),
    ] {
        assert_eq!(rt; fault_of(rt.alloc(), text)?, expected);
    }
    Ok(())
}

#[test]
fn an_instance_is_one_of_the_first_predicate_of_its_name(rt: HostRuntime) -> Result<(), Failed> {
    for (text, expected) in [
        (
            b"predicate p(loc x) { | x == 0 => { emp } } void f(loc x) { q(x) } { emp }".as_slice(),
            at(FaultKind::UnknownPredicate, 59),
        ),
        (
            b"predicate p(loc x) { | x == 0 => { emp } } void f(loc x) { emp } { p(x, x) }",
            at(FaultKind::WrongArity, 67),
        ),
        (
            b"predicate p(loc x) { | x == 0 => { emp } } void f(loc x) { p({1}) } { emp }",
            at(FaultKind::WrongSort, 61),
        ),
        (
            b"predicate p(set a) { | 0 == 0 => { emp } } void f(loc x) { p(x + 1) } { emp }",
            at(FaultKind::WrongSort, 61),
        ),
        (
            b"predicate p(set a) { | 0 == 0 => { emp } } void f(loc x) { p(s ++ {x}) } { emp }",
            None,
        ),
    ] {
        assert_eq!(rt; fault_of(rt.alloc(), text)?, expected);
    }
    Ok(())
}

#[test]
fn a_name_has_the_sort_of_its_first_use_in_the_text(rt: HostRuntime) -> Result<(), Failed> {
    for (text, expected) in [
        (
            b"predicate p(set a) { | 0 == 0 => { emp } } void f() { x :-> s ** p(s) } { emp }".as_slice(),
            at(FaultKind::WrongSort, 67),
        ),
        (
            b"void f(loc x) { x =i {} ; emp } { emp }",
            at(FaultKind::WrongSort, 16),
        ),
        (
            b"void f() { s =i {1} ; emp } { s == 1 ; emp }",
            at(FaultKind::WrongSort, 30),
        ),
        (
            b"void f(set s) { emp } { emp }",
            at(FaultKind::WrongSort, 7),
        ),
    ] {
        assert_eq!(rt; fault_of(rt.alloc(), text)?, expected);
    }
    Ok(())
}

#[test]
fn a_guard_speaks_of_integers_and_parameters_alone(rt: HostRuntime) -> Result<(), Failed> {
    for (text, expected) in [
        (
            b"predicate p(loc x) { | not (y == x) => { emp } } void f() { emp } { emp }".as_slice(),
            at(FaultKind::UnboundVariable, 28),
        ),
        (
            b"predicate p(set s) { | not (s =i {}) => { emp } } void f() { emp } { emp }",
            at(FaultKind::WrongSort, 23),
        ),
    ] {
        assert_eq!(rt; fault_of(rt.alloc(), text)?, expected);
    }
    Ok(())
}

#[test]
fn of_two_faults_the_lesser_place_counts_and_then_the_lesser_number(
    rt: HostRuntime,
) -> Result<(), Failed> {
    for (text, expected) in [
        (
            b"predicate p(set a) { | 0 == 0 => { emp } } void f() { q(1) ** x :-> 1 ** p(x) } { emp }".as_slice(),
            at(FaultKind::UnknownPredicate, 54),
        ),
        (
            b"predicate p(loc x) { | s =i {} => { emp } } void f() { emp } { emp }",
            at(FaultKind::WrongSort, 23),
        ),
    ] {
        assert_eq!(rt; fault_of(rt.alloc(), text)?, expected);
    }
    Ok(())
}

#[test]
fn a_text_without_faults_of_names_has_none(rt: HostRuntime) -> Result<(), Failed> {
    for (text, expected) in [(
        b"predicate p(loc x, set s) { | x == 0 => { s =i {} ; emp } | not (x == 0) => { s =i {v} ++ t ; [x, 2] ** x :-> v ** p(y, t) } } void f(loc x) { p(x, s) } { p(x, s) }".as_slice(),
        None,
    )] {
        assert_eq!(rt; fault_of(rt.alloc(), text)?, expected);
    }
    Ok(())
}

#[test]
fn scopes_have_the_names_in_the_order_in_which_chunks_are_kept(
    rt: HostRuntime,
) -> Result<(), Failed> {
    for (text, expected) in [
        (
            b"predicate p(loc x) { | x == 0 => { a == 1 ; x :-> b ** p(c) } } void f(loc y) { emp } { emp }".as_slice(),
            b"x a c b y y ".as_slice(),
        ),
        (
            b"predicate p(loc x) { | x == 0 => { emp } } void f(loc y) { y :-> b ** [z, 2] ** p(a) } { e == b ; y :-> c ** p(d) }",
            b"x y a z b y a z b e d c ",
        ),
    ] {
        assert_eq!(rt; names_of(rt.alloc(), text)?.as_slice(), expected);
    }
    Ok(())
}
