use cyp_lex::{Fault, FaultKind};
use cyp_spec::{read_spec, write_spec};
use cyp_term::{Fail as Refusal, NoMemory, Text};
use std::alloc::Global;
use std::test::Fail;

/// Texts, and how their specifications are printed.
const ROWS: &[(&[u8], &[u8])] = &[
    (
        b"void f(loc x) { x :-> a } { x :-> 5 }",
        b"void f(int x1) { x1 :-> x2 } { x1 :-> 5 }\n",
    ),
    (
        b"predicate sll(loc x, set s) { | x == 0 => { s =i {} ; emp } | not (x == 0) => { s =i {v} ++ t ; [x, 2] ** x :-> v ** (x + 1) :-> n ** sll(n, t) } } void f(loc x) { sll(x, s) } { sll(x, s) }",
        b"predicate sll(int x1, set s1) { | x1 == 0 => { s1 =i { } ; emp } | x1 != 0 => { s1 =i s2 ++ { x2 } ; sll(x3, s2) ** [x1, 2] ** x1 :-> x2 ** (x1 + 1) :-> x3 } }\nvoid f(int x1) { sll(x1, s1) } { sll(x1, s1) }\n",
    ),
    (
        b"void f(loc x, int n) { n >= 007 /\\ not (n in s) && true /\\ {n, n + 1} ++ s <=i t ; x :-> - 5 ** (4 + x) :-> n } { x :-> a }",
        b"void f(int x1, int x2) { 7 <= x2 && not (x2 in s1) && s1 ++ { x2, x2 + 1 } <=i s2 ; x1 :-> - 5 ** (x1 + 4) :-> x2 } { x1 :-> x3 }\n",
    ),
    (
        b"void f(loc x, int y) { {x, y + 3} =i {} && not (x in s ++ {7}) && y == -5 ; emp } { emp }",
        b"void f(int x1, int x2) { { x1, x2 + 3 } =i { } && not (x1 in s1 ++ { 7 }) && x2 == - 5 ; emp } { emp }\n",
    ),
];

/// The text of the specification that a text is read as, or none where the text is refused.
fn again(alloc: Global, text: &[u8]) -> Result<Option<Text>, NoMemory> {
    match read_spec(alloc, text) {
        Ok(spec) => Ok(Some(write_spec(alloc, &spec)?)),
        Err(Refusal::Named(_)) => Ok(None),
        Err(Refusal::NoMemory) => Err(NoMemory),
    }
}

/// Whether the text is read, and printed as this one.
fn is_printed(alloc: Global, text: &[u8], as_this: &[u8]) -> Result<bool, NoMemory> {
    match again(alloc, text)? {
        Some(printed) => Ok(printed.as_slice() == as_this),
        None => Ok(false),
    }
}

#[test]
fn what_is_printed_is_read_and_printed_so_again(rt: HostRuntime) -> Result<(), Fail> {
    let alloc = rt.alloc();
    for row in ROWS {
        let (text, printed) = *row;
        assert!(rt; is_printed(alloc, text, printed)?);
        assert!(rt; is_printed(alloc, printed, printed)?);
    }
    Ok(())
}

/// The fault of a text, or none where it is read.
fn refusal(alloc: Global, text: &[u8]) -> Result<Option<Fault>, NoMemory> {
    match read_spec(alloc, text) {
        Ok(_spec) => Ok(None),
        Err(Refusal::Named(fault)) => Ok(Some(fault)),
        Err(Refusal::NoMemory) => Err(NoMemory),
    }
}

#[test]
fn an_empty_text_is_refused(rt: HostRuntime) -> Result<(), Fail> {
    let kind = FaultKind::MissingProcedure;
    assert_eq!(rt; refusal(rt.alloc(), b"")?, Some(Fault { kind, place: 0 }));
    Ok(())
}
