ghost use Rattle.std.specs.Prelude.{◌≤◌, length, IfOk};

use cyp_space::{Alt, Moves, count_of_premises};
use cyp_term::{List, NoMemory, Shared};
use cyp_tree::{Grafted, Mark, Tree};
use std::alloc::Global;
use std::test::Fail as Failed;

#[derive(Clone, Copy, Debug, PartialEq, Eq)]
pub struct Spot {
    pub number: u32,
}

fn premises(alloc: Global, count: u32) -> Result<List<Shared<Spot>>, NoMemory>
    ensures { IfOk result (λ ps. length ps ≤ count) }
{
    let mut premises = Vec::new(alloc);
    for number in 0..count {
        premises.push(Shared::new(alloc, Spot { number })?)?;
    }
    Ok(List::from_vec(premises))
}

/// So many ways, the first of cost 1 and each of one more than the one before, with so many premises
/// each.
pub fn moves(alloc: Global, ways: u32, each: u32) -> Result<Moves<u8, Spot>, NoMemory>
    requires ways { ways ≤ 48 }
    requires each { each ≤ 255 }
    ensures { IfOk result (λ m. length m ≤ ways) }
{
    let mut alts = Vec::new(alloc);
    for way in 0..ways {
        alts.push(Alt::new(way as u8, way + 1, premises(alloc, each)?))?;
    }
    Ok(Moves::new(List::from_vec(alts)))
}

pub fn new_tree(alloc: Global) -> Result<Tree<u8, Spot>, NoMemory> {
    Tree::new(alloc, Shared::new(alloc, Spot { number: 0 })?)
}

/// Puts the moves at the leaf, if it is live and they fit; any other leaf is a fault of the test.
pub fn graft(
    alloc: Global,
    tree: &mut Tree<u8, Spot>,
    leaf: u32,
    moves: &Moves<u8, Spot>,
) -> Result<Grafted, NoMemory> {
    if tree.alive(leaf) {
        let count = tree.count();
        let more = count_of_premises(moves.alts());
        if count + more <= 1000000 {
            return tree.graft(alloc, leaf, moves);
        }
    }
    Err(NoMemory)
}

#[test]
fn a_root_without_alternatives_has_failed(rt: HostRuntime) -> Result<(), Failed> {
    let alloc = rt.alloc();
    let mut tree = new_tree(alloc)?;
    assert_eq!(rt; tree.count(), 1);
    assert_eq!(rt; tree.depth(), 0);
    assert!(rt; tree.alive(0));
    let grafted = graft(alloc, &mut tree, 0, &moves(alloc, 0, 0)?)?;
    assert_eq!(rt; grafted.mark, Mark::Failed);
    assert_eq!(rt; grafted.killed.len(), 0);
    assert_eq!(rt; tree.depth(), 0);
    assert!(rt; !tree.alive(0));
    assert!(rt; tree.chosen(alloc)?.is_none());
    Ok(())
}

#[test]
fn leaves_die_with_their_ways(rt: HostRuntime) -> Result<(), Failed> {
    let alloc = rt.alloc();
    let mut tree = new_tree(alloc)?;
    // two ways of two premises: 1 2 | 3 4
    let grafted = graft(alloc, &mut tree, 0, &moves(alloc, 2, 2)?)?;
    assert_eq!(rt; grafted.killed.len(), 0);
    assert_eq!(rt; tree.count(), 5);
    assert_eq!(rt; tree.cost(3), 2);
    assert_eq!(rt; tree.node(4).get().number, 1);
    // 1 fails: 2 dies
    let grafted = graft(alloc, &mut tree, 1, &moves(alloc, 0, 0)?)?;
    assert_eq!(rt; grafted.killed.len(), 1);
    assert_eq!(rt; grafted.killed.as_slice()[0], 2);
    assert!(rt; !tree.alive(2));
    assert!(rt; tree.alive(3));
    // 4 grows to three: 5 6 7
    let grafted = graft(alloc, &mut tree, 4, &moves(alloc, 3, 1)?)?;
    assert_eq!(rt; grafted.killed.len(), 0);
    assert_eq!(rt; tree.count(), 8);
    assert_eq!(rt; tree.cost(7), 5);
    assert_eq!(rt; tree.depth(), 2);
    // 6 is solved: 5 and 7 die, 4 is solved
    let grafted = graft(alloc, &mut tree, 6, &moves(alloc, 1, 0)?)?;
    assert_eq!(rt; grafted.killed.len(), 2);
    assert_eq!(rt; grafted.killed.as_slice()[0], 5);
    assert_eq!(rt; grafted.killed.as_slice()[1], 7);
    assert_eq!(rt; tree.mark(), Mark::Undecided);
    assert!(rt; tree.chosen(alloc)?.is_none());
    // 3 is solved, and so the root: by its second way
    let grafted = graft(alloc, &mut tree, 3, &moves(alloc, 1, 0)?)?;
    assert_eq!(rt; grafted.mark, Mark::Solved);
    assert_eq!(rt; grafted.killed.len(), 0);
    let Some(derivation) = tree.chosen(alloc)? else {
        assert!(rt; false, "not chosen");
        return Ok(());
    };
    assert_eq!(rt; derivation.rule, 1);
    assert_eq!(rt; derivation.parts.len(), 2);
    assert_eq!(rt; derivation.parts.as_slice()[0].parts.len(), 0);
    assert_eq!(rt; derivation.parts.as_slice()[1].rule, 1);
    assert_eq!(rt; derivation.parts.as_slice()[1].node.get().number, 1);
    Ok(())
}

#[test]
fn a_way_without_premises_beside_open_ones(rt: HostRuntime) -> Result<(), Failed> {
    let alloc = rt.alloc();
    let mut tree = new_tree(alloc)?;
    graft(alloc, &mut tree, 0, &moves(alloc, 2, 1)?)?;
    // 1 gets two open ways and a third without premises: its new leaves never live
    let mut alts = moves(alloc, 2, 1)?.into_alts();
    alts.push(alloc, Alt::new(9, 0, List::from_vec(Vec::new(alloc))))?;
    let grafted = graft(alloc, &mut tree, 1, &Moves::new(alts))?;
    assert_eq!(rt; grafted.mark, Mark::Solved);
    assert_eq!(rt; grafted.killed.len(), 1);
    assert_eq!(rt; grafted.killed.as_slice()[0], 2);
    assert!(rt; !tree.alive(3));
    assert_eq!(rt; tree.count(), 5);
    Ok(())
}

#[test]
fn a_path_of_100000_expansions_is_chosen(rt: HostRuntime) -> Result<(), Failed> {
    let alloc = rt.alloc();
    let mut tree = new_tree(alloc)?;
    let one = moves(alloc, 1, 1)?;
    for leaf in 0..100000u32 {
        graft(alloc, &mut tree, leaf, &one)?;
    }
    assert_eq!(rt; tree.count(), 100001);
    assert_eq!(rt; tree.depth(), 100000);
    let grafted = graft(alloc, &mut tree, 100000, &moves(alloc, 1, 0)?)?;
    assert_eq!(rt; grafted.mark, Mark::Solved);
    let Some(derivation) = tree.chosen(alloc)? else {
        assert!(rt; false, "not chosen");
        return Ok(());
    };
    assert_eq!(rt; derivation.parts.len(), 1);
    Ok(())
}

#[test]
fn a_path_of_100000_expansions_dies(rt: HostRuntime) -> Result<(), Failed> {
    let alloc = rt.alloc();
    let mut tree = new_tree(alloc)?;
    let two = moves(alloc, 1, 2)?;
    for turn in 0..100000u32 {
        graft(alloc, &mut tree, 2 * turn, &two)?;
    }
    assert_eq!(rt; tree.count(), 200001);
    let grafted = graft(alloc, &mut tree, 200000, &moves(alloc, 0, 0)?)?;
    assert_eq!(rt; grafted.killed.len(), 100000);
    assert_eq!(rt; grafted.mark, Mark::Failed);
    Ok(())
}
