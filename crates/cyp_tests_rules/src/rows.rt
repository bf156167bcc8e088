//! Tests of the rows of Open and Close.

use crate::nodes::{DISPOSE, root};
use cyp_step::{Row, Rule};
use cyp_term::{List, NoMemory};
use cyp_unfold::{close_rows, open_rows};
use std::alloc::Global;
use std::test::Fail;

/// Makes a list that isn't there before.
const BUILD: &[u8] =
    b"predicate sll(loc x, set s) { | x == 0 => { s =i {} ; emp } | not (x == 0) => { s =i {v} ++ t ; [x, 2] ** x :-> v ** (x + 1) :-> n ** sll(n, t) } } void build(loc x) { emp } { sll(y, s) }";

/// Would have to know what its parameter is.
const GUESS: &[u8] =
    b"predicate sll(loc x, set s) { | x == 0 => { s =i {} ; emp } | not (x == 0) => { s =i {v} ++ t ; [x, 2] ** x :-> v ** (x + 1) :-> n ** sll(n, t) } } void guess(loc x) { emp } { sll(x, s) }";

/// Whether the rows are those of these rules, each with so many premises.
fn are_rows(table: &List<Row>, rules: &[Rule], premises: usize) -> bool {
    let table = table.as_slice();
    if table.len() != rules.len() {
        return false;
    }
    for place in 0..rules.len() {
        if table[place].rule != rules[place] || table[place].premises.len() != premises {
            return false;
        }
    }
    true
}

/// Whether the text's root is opened by these rules, each with two premises.
fn opens_by(alloc: Global, text: &[u8], limit: u8, rules: &[Rule]) -> Result<bool, NoMemory> {
    match root(alloc, text)? {
        Some(node) => Ok(are_rows(&open_rows(alloc, &node, limit)?, rules, 2)),
        None => Ok(false),
    }
}

/// Whether the focus of the text's root is folded by these rules, each with one premise.
fn closes_by(alloc: Global, text: &[u8], limit: u8, rules: &[Rule]) -> Result<bool, NoMemory> {
    match root(alloc, text)? {
        Some(node) => Ok(are_rows(&close_rows(alloc, &node, limit)?, rules, 1)),
        None => Ok(false),
    }
}

#[test]
fn opens_an_instance_below_the_limit(rt: HostRuntime) -> Result<(), Fail> {
    let alloc = rt.alloc();
    assert!(rt; opens_by(alloc, DISPOSE, 2, &[Rule::ByOpen(0)])?);
    Ok(())
}

#[test]
fn opens_nothing_at_limit_zero(rt: HostRuntime) -> Result<(), Fail> {
    let alloc = rt.alloc();
    assert!(rt; opens_by(alloc, DISPOSE, 0, &[])?);
    Ok(())
}

#[test]
fn closes_by_each_clause(rt: HostRuntime) -> Result<(), Fail> {
    let alloc = rt.alloc();
    assert!(rt; closes_by(alloc, BUILD, 2, &[Rule::ByClose(0), Rule::ByClose(1)])?);
    Ok(())
}

#[test]
fn closes_by_no_clause_that_is_dead(rt: HostRuntime) -> Result<(), Fail> {
    let alloc = rt.alloc();
    assert!(rt; closes_by(alloc, GUESS, 2, &[])?);
    Ok(())
}
