ghost use Rattle.std.specs.Prelude.{◌≡◌, nat_eq, None};
ghost use Rattle.cyp_memo.specs.Places.{moves_at};

use cyp_memo::Memo;
use cyp_space::{Alt, Moves};
use cyp_term::{Copied, List, NoMemory, Shared};
use std::alloc::Global;
use std::test::Fail as Failed;

/// Moves of one way with this rule and two premises.
fn moves(alloc: Global, rule: u8) -> Result<Moves<u8, u8>, NoMemory> {
    let mut premises = Vec::new(alloc);
    premises.push(Shared::new(alloc, 7)?)?;
    premises.push(Shared::new(alloc, 8)?)?;
    let mut alts = Vec::new(alloc);
    alts.push(Alt::new(rule, 1, List::from_vec(premises)))?;
    Ok(Moves::new(List::from_vec(alts)))
}

/// Makes a place for a node that isn't in the memo, and gives it the moves.
fn put(
    alloc: Global,
    memo: &mut Memo<u8, u8>,
    node: &Shared<u8>,
    moves: Moves<u8, u8>,
) -> Result<(), NoMemory>
    requires { moves_at nat_eq memo.old node.now ≡ None }
{
    memo.place(node.copy(alloc)?)?;
    memo.insert(node, moves);
    Ok(())
}

/// The same for any node; one that is in the memo stays as it is.
fn put_new(
    alloc: Global,
    memo: &mut Memo<u8, u8>,
    node: &Shared<u8>,
    moves: Moves<u8, u8>,
) -> Result<(), NoMemory> {
    if memo.look(node).is_none() {
        put(alloc, memo, node, moves)?;
    }
    Ok(())
}

/// The rule of the first way that the memo has for a node.
fn first_rule(memo: &Memo<u8, u8>, node: &Shared<u8>) -> Option<u8> {
    let moves = memo.look(node)?;
    let first = moves.alts().first()?;
    Some(*first.rule())
}

#[test]
fn a_node_is_in_the_memo_once_its_moves_are(rt: HostRuntime) -> Result<(), Failed> {
    let alloc = rt.alloc();
    let node = Shared::new(alloc, 3)?;
    let equal = Shared::new(alloc, 3)?;
    let other = Shared::new(alloc, 4)?;
    let mut memo = Memo::new(alloc);
    assert_eq!(rt; memo.held(), 0);
    assert!(rt; memo.look(&node).is_none());
    memo.place(Shared::new(alloc, 3)?)?;
    assert!(rt; memo.look(&node).is_none());
    put_new(alloc, &mut memo, &node, moves(alloc, 1)?)?;
    assert_eq!(rt; first_rule(&memo, &equal), Some(1));
    assert!(rt; memo.look(&other).is_none());
    assert_eq!(rt; memo.held(), 2);
    // a place that is there stays with its moves
    memo.place(equal)?;
    assert_eq!(rt; first_rule(&memo, &node), Some(1));
    put_new(alloc, &mut memo, &other, moves(alloc, 2)?)?;
    put_new(alloc, &mut memo, &node, moves(alloc, 5)?)?;
    assert_eq!(rt; first_rule(&memo, &other), Some(2));
    assert_eq!(rt; memo.held(), 4);
    Ok(())
}
