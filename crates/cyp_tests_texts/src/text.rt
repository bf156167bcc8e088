use cyp_lex::{Fault, FaultKind, tokens};
use cyp_term::{Fail, NoMemory};
use cyp_text::{ArgTree, ChunkTree, IntTree, ItemTree, PureTree, TextTree, parse};
use std::alloc::Global;
use std::test::Fail as Failed;

/// The tree of the text, or its fault.
fn read(alloc: Global, text: &[u8]) -> Result<TextTree, Fail<Fault>> {
    if text.len() > 65536 {
        return Err(Fail::Named(Fault {
            kind: FaultKind::TooLong,
            place: 65536,
        }));
    }
    let tokens = tokens(alloc, text)?;
    parse(alloc, text, tokens.as_slice())
}

/// The fault of the text, or nothing where it spells a tree.
fn fault_of(alloc: Global, text: &[u8]) -> Result<Option<Fault>, NoMemory> {
    match read(alloc, text) {
        Ok(_tree) => Ok(None),
        Err(Fail::Named(fault)) => Ok(Some(fault)),
        Err(Fail::NoMemory) => Err(NoMemory),
    }
}

fn at(kind: FaultKind, place: u32) -> Option<Fault> {
    Some(Fault { kind, place })
}

/// An instance with a name and a union, a block of two cells, and a cell with the number -5.
fn are_as_written(chunks: &[ChunkTree]) -> bool {
    match chunks {
        [
            ChunkTree::InstanceOf(name, args),
            ChunkTree::BlockOf(_, _, size),
            ChunkTree::NamedCell(_, IntTree::MinusNum(_, content)),
        ] => name.place == 76 && are_name_and_union(args.as_slice()) && *size == 2 && *content == 5,
        _ => false,
    }
}

fn are_name_and_union(args: &[ArgTree]) -> bool {
    matches!(
        args,
        [
            ArgTree::TermArg(IntTree::Named(_)),
            ArgTree::BracesArg(_, _, _),
        ]
    )
}

/// How many predicates, parameters and chunks of the postcondition there are, and whether the
/// chunks of the precondition are as the test has written them.
fn seen(alloc: Global, text: &[u8]) -> Result<Option<(usize, usize, usize, bool)>, NoMemory> {
    match read(alloc, text) {
        Ok(tree) => Ok(Some((
            tree.preds.len(),
            tree.params.len(),
            tree.post.chunks.len(),
            are_as_written(tree.pre.chunks.as_slice()),
        ))),
        Err(Fail::Named(_fault)) => Ok(None),
        Err(Fail::NoMemory) => Err(NoMemory),
    }
}

/// How often a literal is negated.
fn negations_of(item: &ItemTree) -> Option<usize> {
    match item {
        ItemTree::LitItem(literal) => Some(literal.nots().len()),
        ItemTree::TrueItem => None,
    }
}

/// How often the first literal of the precondition is negated.
fn negations(alloc: Global, text: &[u8]) -> Result<Option<usize>, NoMemory> {
    match read(alloc, text) {
        Ok(tree) => Ok(match &tree.pre.pure {
            PureTree::Items(first, _) => negations_of(first.get()),
            PureTree::NoItems => None,
        }),
        Err(Fail::Named(_fault)) => Ok(None),
        Err(Fail::NoMemory) => Err(NoMemory),
    }
}

#[test]
fn chunks_and_clauses_are_read_in_their_order(rt: HostRuntime) -> Result<(), Failed> {
    let text =
        b"predicate p(loc x, set s) { | x == 0 => { s =i {} ; emp } } void f(loc x) { p(x, {1} ++ s) ** [x, 2] ** x :-> -5 } { emp }";
    assert_eq!(rt; seen(rt.alloc(), text)?, Some((1, 1, 0, true)));
    Ok(())
}

#[test]
fn texts_are_refused_at_the_first_token_that_no_text_allows(rt: HostRuntime) -> Result<(), Failed> {
    for (text, kind, place) in [
        (b"".as_slice(), FaultKind::MissingProcedure, 0),
        (b"voi", FaultKind::Expected, 0),
        (b"void", FaultKind::Expected, 4),
        (b"void swap(l", FaultKind::Expected, 10),
        (b"void swap(loc x, loc y) { x :", FaultKind::BadByte, 28),
        (
            b"void swap(loc x, loc y) { x :-> a",
            FaultKind::Expected,
            33,
        ),
        (
            b"void swap(loc x, loc y) { x :-> a *",
            FaultKind::BadByte,
            34,
        ),
        (
            b"void swap(loc x, loc y) { x :-> a ** y :-> b } { x :-> b ** y :-> a ",
            FaultKind::Expected,
            68,
        ),
        (
            b"predicate p(loc x) { | x == 0 => { emp }",
            FaultKind::MissingProcedure,
            40,
        ),
        (
            b"void f() { 12ab == 1 ; emp } { emp }",
            FaultKind::Expected,
            13,
        ),
        (b"if", FaultKind::Expected, 0),
        (b"void void() { emp } { emp }", FaultKind::ReservedName, 5),
        (
            b"void f(loc x) { x + if == 1 ; emp } { emp }",
            FaultKind::Expected,
            20,
        ),
        (
            b"void f() { 1 + if == 1 ; emp } { emp }",
            FaultKind::ReservedName,
            15,
        ),
        (
            b"predicate p(loc x) { | true => { emp } } void f() { emp } { emp }",
            FaultKind::ReservedName,
            23,
        ),
        (
            b"void f(loc x) { x + y == 1 ; emp } { emp }",
            FaultKind::NotDifference,
            20,
        ),
        (
            b"void f() { 1 - 2 == 0 ; emp } { emp }",
            FaultKind::NotDifference,
            13,
        ),
        (
            b"void f() { 1 + 2 == 0 ; emp } { emp }",
            FaultKind::NotDifference,
            15,
        ),
        (
            b"void f() { - 1 + x == 0 ; emp } { emp }",
            FaultKind::NotDifference,
            15,
        ),
        (
            b"void f() { x + 1 + 2 == 0 ; emp } { emp }",
            FaultKind::NotDifference,
            17,
        ),
        (
            b"void f(loc x) { [x, 2 - 1] } { emp }",
            FaultKind::Expected,
            22,
        ),
        (
            b"void f() { {1} ++ s - 1 =i s ; emp } { emp }",
            FaultKind::Expected,
            20,
        ),
        (b"void f() { x <=i ; emp } { emp }", FaultKind::Expected, 17),
        (b"void f() { s =i2 ; emp } { emp }", FaultKind::BadByte, 13),
    ] {
        assert_eq!(rt; fault_of(rt.alloc(), text)?, at(kind, place));
    }
    Ok(())
}

#[test]
fn a_comparison_with_a_name_and_a_number_with_zeros_are_read(
    rt: HostRuntime,
) -> Result<(), Failed> {
    for text in [
        b"void f() { x <=in1 ; emp } { emp }".as_slice(),
        b"void f() { x == 007 ; emp } { emp }",
    ] {
        assert_eq!(rt; fault_of(rt.alloc(), text)?, None);
    }
    Ok(())
}

/// Ten thousand negations, one in the other.
#[test]
fn negations_may_nest_deep(rt: HostRuntime) -> Result<(), Failed> {
    let mut text = Vec::new(rt.alloc());
    text.extend_from_slice(b"void f(){")?;
    for _ in 0..10000 {
        text.extend_from_slice(b"not(")?;
    }
    text.extend_from_slice(b"1==1")?;
    for _ in 0..10000 {
        text.push(b')')?;
    }
    text.extend_from_slice(b";emp}{emp}")?;
    assert_eq!(rt; negations(rt.alloc(), text.as_slice())?, Some(10000));
    Ok(())
}
