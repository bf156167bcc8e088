ghost use Rattle.std.specs.Prelude.{◌≡◌, ◌<◌};

use crate::answer::report_of;
use crate::root::root_of_spec;
use crate::{Status, run_still};
use cyp_io::{MemSink, MemSource};
use cyp_space::Settings;
use cyp_spec::read_spec;
use cyp_term::{List, NoMemory, Steps};
use std::alloc::Global;
use std::marker::Brand;
use std::sync::ledger::{Blank, Ledger};
use std::test::Fail;

const SWAP: &[u8] = b"void swap(loc x, loc y) { x :-> a ** y :-> b } { x :-> b ** y :-> a }";

const SWAPPED: &[u8] =
    b"void swap(v1, v2) {\n  let v3 = *v1;\n  let v4 = *v2;\n  *v1 = v4;\n  *v2 = v3;\n}\n";

const ALLOCATION: &[u8] = b"void f(loc r) { r :-> 0 } { r :-> y ** [y, 1] ** y :-> 7 }";

const ALLOCATED: &[u8] = b"void f(v1) {\n  let v2 = malloc(1);\n  *v1 = v2;\n  *v2 = 7;\n}\n";

const CONSTANT: &[u8] = b"void f(loc x) { x :-> a } { x :-> 5 }";

/// How a run ended, and what it wrote.
#[derive(Debug, Drop, PartialEq, Eq)]
struct Ran {
    status: Status,
    text: List<u8>,
}

fn list_of<T: Copy>(alloc: Global, items: &[T]) -> Result<List<T>, NoMemory> {
    Ok(List::from_vec(items.to_vec(alloc)?))
}

fn ending(alloc: Global, status: Status, text: &[u8]) -> Result<Ran, NoMemory> {
    Ok(Ran {
        status,
        text: list_of(alloc, text)?,
    })
}

fn run_with<L: Ledger>(
    alloc: Global,
    words: &[String],
    source: &mut MemSource,
    sink: &mut MemSink,
    blank: Blank,
) -> Status
    requires name { blank.name ≡ L.name }
    requires parts { blank.parts ≡ L.parts }
    requires one { blank.parts ≡ 1 }
{
    let mut steps = Steps::<L>::new(blank);
    run_still(alloc, words, source, sink, &mut steps)
}

/// Runs the program in memory, where source and sink move so many bytes at a call, and fail at the
/// calls of these numbers.
fn run(
    alloc: Global,
    words: &[&str],
    text: &[u8],
    step: usize,
    bad_reads: &[u32],
    bad_writes: &[u32],
) -> Result<Ran, NoMemory>
    requires { 0 < step }
{
    let mut given = Vec::new(alloc);
    for word in words {
        given.push(word.to_string(alloc)?)?;
    }
    let mut source = MemSource::new(list_of(alloc, text)?, step, list_of(alloc, bad_reads)?);
    let mut sink = MemSink::new(alloc, 4096, step, list_of(alloc, bad_writes)?)?;
    let status = run_with::<Brand>(
        alloc,
        given.as_slice(),
        &mut source,
        &mut sink,
        Blank::new(1),
    );
    ending(alloc, status, sink.bytes())
}

/// Runs `synth` over a text, with no fault.
fn synth(alloc: Global, text: &[u8]) -> Result<Ran, NoMemory> {
    run(alloc, &["synth"], text, 64, &[], &[])
}

/// Texts, with what is written for them and how the run ends.
const ROWS: &[(&[u8], &[u8], Status)] = &[
    // Flat texts.
    (CONSTANT, b"void f(v1) {\n  *v1 = 5;\n}\n", Status::Program),
    (SWAP, SWAPPED, Status::Program),
    (
        b"void f(loc x) { x :-> a } { x :-> - 5 }",
        b"void f(v1) {\n  *v1 = -5;\n}\n",
        Status::Program,
    ),
    (
        b"void f(loc x) { emp } { x :-> 1 }",
        b"no program\n",
        Status::NoProgram,
    ),
    (
        b"void f(loc x) { x :-> 1 ** x :-> 2 } { emp }",
        b"void f(v1) {\n  error;\n}\n",
        Status::Program,
    ),
    (
        b"void f() { emp } { emp } //\xff",
        b"void f() {\n}\n",
        Status::Program,
    ),
    (
        b"void v1() { emp } { emp }",
        b"void v1_0() {\n}\n",
        Status::Program,
    ),
    (
        b"predicate p() { | 0 == 0 => { emp } } void f() { true ; emp } { emp }",
        b"void f() {\n}\n",
        Status::Program,
    ),
    (
        b"void f(loc x) { x :-> 007 } { x :-> 7 }",
        b"void f(v1) {\n}\n",
        Status::Program,
    ),
    // A guard isn't among the eight literals of a clause.
    (
        b"predicate p(int n) { | n == 0 => { n < 1 && n < 2 && n < 3 && n < 4 && n < 5 && n < 6 && n < 7 && n < 8 ; emp } } void f() { emp } { emp }",
        b"void f() {\n}\n",
        Status::Program,
    ),
    (
        b"predicate p(int n) { | n == 0 => { n < 1 && n < 2 && n < 3 && n < 4 && n < 5 && n < 6 && n < 7 && n < 8 && n < 9 ; emp } } void f() { emp } { emp }",
        b"refused: TooLarge at 10\n",
        Status::Refused,
    ),
    // Texts with literals, blocks and instances.
    (
        b"void f(int n, int m) { n == m + 2147483648 ; emp } { emp }",
        b"void f(v1, v2) {\n}\n",
        Status::Program,
    ),
    (
        b"void f(loc x) { [x, 1] ** x :-> a } { emp }",
        b"void f(v1) {\n  free(v1);\n}\n",
        Status::Program,
    ),
    (ALLOCATION, ALLOCATED, Status::Program),
    (
        b"void f(int n) { emp } { n <= e ; emp }",
        b"void f(v1) {\n}\n",
        Status::Program,
    ),
    (
        b"predicate sll(loc x, set s) { | x == 0 => { s =i {} ; emp } | not (x == 0) => { s =i {v} ++ t ; [x, 2] ** x :-> v ** (x + 1) :-> n ** sll(n, t) } } void f(loc x) { sll(x, s) } { sll(x, s) }",
        b"void f(v1) {\n}\n",
        Status::Program,
    ),
    (
        b"predicate sll(loc x, set s) { | x == 0 => { s =i {} ; emp } | not (x == 0) => { s =i {v} ++ t ; [x, 2] ** x :-> v ** (x + 1) :-> n ** sll(n, t) } } void f() { sll(x, s) } { emp }",
        b"no program\n",
        Status::NoProgram,
    ),
    (
        b"predicate p() { | 0 == 0 => { emp } } void f() { p() } { emp }",
        b"no program\n",
        Status::NoProgram,
    ),
    (
        b"void f(loc x) { x :-> a + 1 } { emp }",
        b"no program\n",
        Status::NoProgram,
    ),
    (
        b"void f(loc x) { emp } { (x + 1) :-> 0 }",
        b"no program\n",
        Status::NoProgram,
    ),
    (
        b"void f(loc x) { x <=in1 ; emp } { emp }",
        b"void f(v1) {\n}\n",
        Status::Program,
    ),
    // An offset that is solved for counts, up to 2^32.
    (
        b"void f(int a) { b == a + 2147483648 && c == b + 2147483648 ; emp } { emp }",
        b"void f() {\n}\n",
        Status::Program,
    ),
    (
        b"void f(int a) { b == a + 2147483648 && c == b + 2147483648 && d == c + 1 ; emp } { emp }",
        b"refused: TooLarge at 5\n",
        Status::Refused,
    ),
    // Of integers a goal has at most 64, its cardinalities not among them.
    (
        b"predicate p() { | 0 == 0 => { emp } } void f() { aa < ab && ac < ad && ae < af && ag < ah && ai < aj && ak < al && am < an && ao < ap && ba < bb && bc < bd && be < bf && bg < bh && bi < bj && bk < bl && bm < bn && bo < bp && ca < cb && cc < cd && ce < cf && cg < ch && ci < cj && ck < cl && cm < cn && co < cp && da < db && dc < dd && de < df && dg < dh && di < dj && dk < dl && dm < dn && xdo < dp ; p() } { emp }",
        b"no program\n",
        Status::NoProgram,
    ),
    (
        b"predicate p() { | 0 == 0 => { emp } } void f() { aa < ab && ac < ad && ae < af && ag < ah && ai < aj && ak < al && am < an && ao < ap && ba < bb && bc < bd && be < bf && bg < bh && bi < bj && bk < bl && bm < bn && bo < bp && ca < cb && cc < cd && ce < cf && cg < ch && ci < cj && ck < cl && cm < cn && co < cp && da < db && dc < dd && de < df && dg < dh && di < dj && dk < dl && dm < dn && xdo < dp && more < 0 ; p() } { emp }",
        b"refused: TooLarge at 43\n",
        Status::Refused,
    ),
    // Bytes and numbers that are refused.
    (b"", b"refused: MissingProcedure at 0\n", Status::Refused),
    (
        b"void f(loc x) { x :-> $ } { emp }",
        b"refused: BadByte at 22\n",
        Status::Refused,
    ),
    (
        b"void f(loc x) { s =i2 ; emp } { emp }",
        b"refused: BadByte at 18\n",
        Status::Refused,
    ),
    (
        b"void f(int n, int m) { n == m + 2147483649 ; emp } { emp }",
        b"refused: NumberRange at 32\n",
        Status::Refused,
    ),
    // Texts of no grammar.
    (b"voi", b"refused: Expected at 0\n", Status::Refused),
    (b"void", b"refused: Expected at 4\n", Status::Refused),
    (
        b"void swap(l",
        b"refused: Expected at 10\n",
        Status::Refused,
    ),
    (
        b"void swap(loc x, loc y) { x :",
        b"refused: BadByte at 28\n",
        Status::Refused,
    ),
    (
        b"void swap(loc x, loc y) { x :-> a",
        b"refused: Expected at 33\n",
        Status::Refused,
    ),
    (
        b"void swap(loc x, loc y) { x :-> a *",
        b"refused: BadByte at 34\n",
        Status::Refused,
    ),
    (
        b"void swap(loc x, loc y) { x :-> a ** y :-> b } { x :-> b ** y :-> a ",
        b"refused: Expected at 68\n",
        Status::Refused,
    ),
    (
        b"void f(loc x) { x :-> a",
        b"refused: Expected at 23\n",
        Status::Refused,
    ),
    (b"if", b"refused: Expected at 0\n", Status::Refused),
    (
        b"void f() { 12ab == 1 ; emp } { emp }",
        b"refused: Expected at 13\n",
        Status::Refused,
    ),
    (
        b"void f(loc x) { x + if == 1 ; emp } { emp }",
        b"refused: Expected at 20\n",
        Status::Refused,
    ),
    (
        b"void f() { {1} ++ s - 1 =i s ; emp } { emp }",
        b"refused: Expected at 20\n",
        Status::Refused,
    ),
    (
        b"void f(loc x) { [x, 1 - 1] } { emp }",
        b"refused: Expected at 22\n",
        Status::Refused,
    ),
    (
        b"void f(loc x) { x <=i ; emp } { emp }",
        b"refused: Expected at 22\n",
        Status::Refused,
    ),
    (
        b"void f(loc x) { 1 + if == 1 ; emp } { emp }",
        b"refused: ReservedName at 20\n",
        Status::Refused,
    ),
    (
        b"void void() { emp } { emp }",
        b"refused: ReservedName at 5\n",
        Status::Refused,
    ),
    (
        b"predicate p(loc x) { | true => { emp } } void f() { emp } { emp }",
        b"refused: ReservedName at 23\n",
        Status::Refused,
    ),
    (
        b"void f(loc x) { x + y == 1 ; emp } { emp }",
        b"refused: NotDifference at 20\n",
        Status::Refused,
    ),
    // Names and sorts that are refused.
    (
        b"void f(loc x, loc x) { emp } { emp }",
        b"refused: DuplicateName at 18\n",
        Status::Refused,
    ),
    (
        b"predicate p() { | 0 == 0 => { emp } } predicate p() { | 0 == 0 => { emp } } void f() { emp } { emp }",
        b"refused: DuplicateName at 48\n",
        Status::Refused,
    ),
    (
        b"void f(loc x) { p(x) } { emp }",
        b"refused: UnknownPredicate at 16\n",
        Status::Refused,
    ),
    (
        b"predicate p(loc x) { | x == 0 => { emp } } void f() { p() } { emp }",
        b"refused: WrongArity at 54\n",
        Status::Refused,
    ),
    (
        b"void f(loc x) { x in x ; emp } { emp }",
        b"refused: WrongSort at 21\n",
        Status::Refused,
    ),
    (
        b"void f() { s =i t /\\ s in t ; emp } { emp }",
        b"refused: WrongSort at 21\n",
        Status::Refused,
    ),
    (
        b"void f(set s) { emp } { emp }",
        b"refused: WrongSort at 7\n",
        Status::Refused,
    ),
    (
        b"predicate p(set s) { | not (0 in s) => { emp } } void f() { emp } { emp }",
        b"refused: WrongSort at 23\n",
        Status::Refused,
    ),
    (
        b"predicate p(set a) { | 0 == 0 => { emp } } void f() { x :-> s ** p(s) } { emp }",
        b"refused: WrongSort at 67\n",
        Status::Refused,
    ),
    (
        b"predicate p(loc x) { | y == 0 => { emp } } void f() { emp } { emp }",
        b"refused: UnboundVariable at 23\n",
        Status::Refused,
    ),
    // Predicates and limits that are refused.
    (
        b"predicate p(loc x) { | x <= 0 => { emp } | x == 0 => { emp } } void f(loc x) { emp } { emp }",
        b"refused: GuardsOverlap at 43\n",
        Status::Refused,
    ),
    (
        b"predicate p(loc x) { | x == 0 => { emp } | x != 0 => { p(x) } } void f(loc x) { emp } { emp }",
        b"refused: Unproductive at 41\n",
        Status::Refused,
    ),
    (
        b"void f(loc x) { [x, 9] } { emp }",
        b"refused: TooLarge at 20\n",
        Status::Refused,
    ),
    (
        b"void f(int a, int b, int c, int d, int e, int g, int h, int i, int j, int k, int l, int m, int n) { [a, 9] } { emp }",
        b"refused: TooLarge at 5\n",
        Status::Refused,
    ),
];

#[test]
fn each_text_has_its_answer(rt: HostRuntime) -> Result<(), Fail> {
    let alloc = rt.alloc();
    for row in ROWS {
        let (text, line, status) = *row;
        let said = ending(alloc, status, line)?;
        assert_eq!(rt; synth(alloc, text)?, said);
    }
    Ok(())
}

#[test]
fn a_text_of_the_greatest_length_is_read_and_a_longer_one_is_not(
    rt: HostRuntime,
) -> Result<(), Fail> {
    let alloc = rt.alloc();
    let mut text = [b' '; 65_537];
    text[..CONSTANT.len()].copy_from_slice(CONSTANT);
    let read = run(alloc, &["synth"], &text[..65_536], 4096, &[], &[])?;
    let written = ending(alloc, Status::Program, b"void f(v1) {\n  *v1 = 5;\n}\n")?;
    assert_eq!(rt; read, written);
    let refused = ending(alloc, Status::Refused, b"refused: TooLong at 65536\n")?;
    assert_eq!(rt; run(alloc, &["synth"], &text, 4096, &[], &[])?, refused);
    Ok(())
}

#[test]
fn words_and_faults_have_their_answers(rt: HostRuntime) -> Result<(), Fail> {
    let alloc = rt.alloc();
    let usage = ending(alloc, Status::Usage, b"words refused\n")?;
    assert_eq!(rt; run(alloc, &[], SWAP, 64, &[0], &[])?, usage);
    assert_eq!(rt; run(alloc, &["Synth"], SWAP, 64, &[0], &[])?, usage);
    assert_eq!(rt;
        run(alloc, &["synth", "synth"], SWAP, 64, &[0], &[])?,
        usage
    );
    assert_eq!(rt;
        run(alloc, &["synth"], SWAP, 1, &[], &[])?,
        ending(alloc, Status::Program, SWAPPED)?
    );
    assert_eq!(rt;
        run(alloc, &["synth"], SWAP, 64, &[0], &[])?,
        ending(alloc, Status::ReadFault, b"")?
    );
    assert_eq!(rt;
        run(alloc, &["synth"], SWAP, 64, &[2], &[])?,
        ending(alloc, Status::ReadFault, b"")?
    );
    assert_eq!(rt;
        run(alloc, &["synth"], CONSTANT, 10, &[1], &[])?,
        ending(alloc, Status::ReadFault, b"")?
    );
    assert_eq!(rt;
        run(alloc, &["synth"], CONSTANT, 4, &[], &[1])?,
        ending(alloc, Status::WriteFault, b"void")?
    );
    assert_eq!(rt;
        run(alloc, &["synth"], SWAP, 8, &[], &[0])?,
        ending(alloc, Status::WriteFault, b"")?
    );
    assert_eq!(rt;
        run(alloc, &["synth"], SWAP, 8, &[], &[1])?,
        ending(alloc, Status::WriteFault, b"void swa")?
    );
    assert_eq!(rt;
        run(alloc, &["word"], SWAP, 8, &[], &[1])?,
        ending(alloc, Status::WriteFault, b"words re")?
    );
    Ok(())
}

#[test]
fn options_have_their_answers(rt: HostRuntime) -> Result<(), Fail> {
    let alloc = rt.alloc();
    let usage = ending(alloc, Status::Usage, b"words refused\n")?;
    let spent = ending(alloc, Status::Spent, b"budget spent\n")?;
    let written = ending(alloc, Status::Program, b"void f(v1) {\n  *v1 = 5;\n}\n")?;
    assert_eq!(rt;
        run(alloc, &["synth", "--budget", "2"], CONSTANT, 64, &[], &[])?,
        spent
    );
    assert_eq!(rt;
        run(alloc, &["synth", "--budget=3"], CONSTANT, 64, &[], &[])?,
        written
    );
    assert_eq!(rt;
        run(alloc, &["synth", "--budget", "0"], CONSTANT, 64, &[0], &[])?,
        usage
    );
    assert_eq!(rt;
        run(
            alloc,
            &["synth", "--stats", "--unfold", "3"],
            CONSTANT,
            64,
            &[],
            &[]
        )?,
        ending(
            alloc,
            Status::Program,
            b"void f(v1) {\n  *v1 = 5;\n}\n// expansions 3\n// nodes 3\n// depth 2\n"
        )?
    );
    assert_eq!(rt;
        run(
            alloc,
            &["synth", "--stats", "--budget", "2"],
            CONSTANT,
            64,
            &[],
            &[]
        )?,
        ending(
            alloc,
            Status::Spent,
            b"budget spent\n// expansions 2\n// nodes 3\n// depth 2\n"
        )?
    );
    assert_eq!(rt; run(alloc, &["gen", "3"], SWAP, 64, &[0], &[])?, usage);
    assert_eq!(rt; run(alloc, &["run"], SWAP, 64, &[0], &[])?, usage);
    Ok(())
}

/// How many leaves the search from the text's root expands.
fn expansions(alloc: Global, text: &[u8]) -> Result<Option<u32>, NoMemory> {
    let Ok(spec) = read_spec(alloc, text) else {
        return Ok(None);
    };
    let root = root_of_spec(alloc, &spec)?;
    Ok(Some(report_of(alloc, &Settings::default(), root)?.expansions))
}

#[test]
fn searches_end_after_so_many_expansions(rt: HostRuntime) -> Result<(), Fail> {
    let alloc = rt.alloc();
    assert_eq!(rt; expansions(alloc, CONSTANT)?, Some(3));
    assert_eq!(rt; expansions(alloc, SWAP)?, Some(7));
    assert_eq!(rt; expansions(alloc, ALLOCATION)?, Some(7));
    assert_eq!(rt;
        expansions(alloc, b"void f(loc x) { [x, 1] ** x :-> a } { emp }")?,
        Some(2)
    );
    assert_eq!(rt;
        expansions(alloc, b"void f(int n) { emp } { n <= e ; emp }")?,
        Some(2)
    );
    assert_eq!(rt;
        expansions(alloc, b"void f(loc x) { emp } { x :-> 1 }")?,
        Some(1)
    );
    assert_eq!(rt;
        expansions(alloc, b"void f(loc x) { x :-> 1 ** x :-> 2 } { emp }")?,
        Some(1)
    );
    Ok(())
}
