//! Tests of matches and of the rows of Call, where the rest of a list is left.

use crate::nodes::freed;
use cyp_call::call_rows;
use cyp_heap::Node;
use cyp_step::{Row, Rule, is_step, writes_for};
use cyp_term::NoMemory;
use cyp_unify::{Match, match_at, matches};
use std::alloc::Global;
use std::test::Fail;

/// The match of the oldest companion, where it is the only one.
fn only_match(alloc: Global, node: &Node) -> Result<Option<Match>, NoMemory> {
    if node.links().len() == 0 {
        return Ok(None);
    }
    let mut found = matches(alloc, node, 0)?;
    if found.len() != 1 {
        return Ok(None);
    }
    Ok(found.pop())
}

/// The match of the oldest companion by this pairing.
fn paired(alloc: Global, node: &Node, pairs: &[u8]) -> Result<Option<Match>, NoMemory> {
    if node.links().len() == 0 {
        return Ok(None);
    }
    match_at(alloc, node, 0, pairs)
}

/// Whether the match pairs the rest with the list, and nothing is to be shown or stored.
fn is_of_rest(found: &Match) -> bool {
    found.pairs.as_slice() == [0].as_slice() && found.need.len() == 0 && found.mends.len() == 0
}

fn matches_rest(alloc: Global, node: &Node) -> Result<bool, NoMemory> {
    match only_match(alloc, node)? {
        Some(found) => Ok(is_of_rest(&found)),
        None => Ok(false),
    }
}

fn has_match_of_pairs(alloc: Global, node: &Node, found: &Match) -> Result<bool, NoMemory> {
    match paired(alloc, node, found.pairs.as_slice())? {
        Some(same) => Ok(same == *found),
        None => Ok(false),
    }
}

/// Whether the only match is that of its pairing.
fn is_match_at(alloc: Global, node: &Node) -> Result<bool, NoMemory> {
    match only_match(alloc, node)? {
        Some(found) => has_match_of_pairs(alloc, node, &found),
        None => Ok(false),
    }
}

fn stores_nothing(alloc: Global, node: &Node, found: &Match) -> Result<bool, NoMemory> {
    match writes_for(alloc, node, found)? {
        Some(mends) => Ok(mends.len() == 0),
        None => Ok(false),
    }
}

/// Whether a call by the only match needs no store before it.
fn needs_no_store(alloc: Global, node: &Node) -> Result<bool, NoMemory> {
    match only_match(alloc, node)? {
        Some(found) => stores_nothing(alloc, node, &found),
        None => Ok(false),
    }
}

/// The row of Call, where there is only one.
fn only_call(alloc: Global, node: &Node) -> Result<Option<Row>, NoMemory> {
    let mut table = call_rows(alloc, node)?;
    if table.len() != 1 {
        return Ok(None);
    }
    Ok(table.pop())
}

/// Whether the row calls the oldest companion on the rest, with one premise.
fn is_call_on_rest(row: &Row) -> bool {
    match &row.rule {
        Rule::ByCall(call) => {
            call.link == 0 && call.pairs.as_slice() == [0].as_slice() && row.premises.len() == 1
        }
        _ => false,
    }
}

fn calls_on_rest(alloc: Global, node: &Node) -> Result<bool, NoMemory> {
    match only_call(alloc, node)? {
        Some(row) => Ok(is_call_on_rest(&row)),
        None => Ok(false),
    }
}

/// Whether the row is a step, and its rule without premises is none.
fn is_row_a_step(alloc: Global, node: &Node, row: &Row) -> Result<bool, NoMemory> {
    let with_premises = is_step(alloc, node, &row.rule, row.premises.as_slice())?;
    let without = is_step(alloc, node, &row.rule, &[])?;
    Ok(with_premises && !without)
}

fn is_call_a_step(alloc: Global, node: &Node) -> Result<bool, NoMemory> {
    match only_call(alloc, node)? {
        Some(row) => is_row_a_step(alloc, node, &row),
        None => Ok(false),
    }
}

#[test]
fn the_companion_lies_in_the_rest(rt: HostRuntime) -> Result<(), Fail> {
    let alloc = rt.alloc();
    let Some(node) = freed(alloc)? else {
        return Err(Fail::new("no such node"));
    };
    assert!(rt; matches_rest(alloc, &node)?);
    Ok(())
}

#[test]
fn a_match_is_that_of_its_pairing(rt: HostRuntime) -> Result<(), Fail> {
    let alloc = rt.alloc();
    let Some(node) = freed(alloc)? else {
        return Err(Fail::new("no such node"));
    };
    assert!(rt; is_match_at(alloc, &node)?);
    assert!(rt; paired(alloc, &node, &[])?.is_none());
    Ok(())
}

#[test]
fn a_call_on_the_rest_needs_no_store(rt: HostRuntime) -> Result<(), Fail> {
    let alloc = rt.alloc();
    let Some(node) = freed(alloc)? else {
        return Err(Fail::new("no such node"));
    };
    assert!(rt; needs_no_store(alloc, &node)?);
    Ok(())
}

#[test]
fn the_rest_has_one_call(rt: HostRuntime) -> Result<(), Fail> {
    let alloc = rt.alloc();
    let Some(node) = freed(alloc)? else {
        return Err(Fail::new("no such node"));
    };
    assert!(rt; calls_on_rest(alloc, &node)?);
    Ok(())
}

#[test]
fn a_call_is_a_step_to_its_premises_alone(rt: HostRuntime) -> Result<(), Fail> {
    let alloc = rt.alloc();
    let Some(node) = freed(alloc)? else {
        return Err(Fail::new("no such node"));
    };
    assert!(rt; is_call_a_step(alloc, &node)?);
    Ok(())
}
