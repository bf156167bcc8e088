use crate::tree::{Spot, graft, moves, new_tree};
use cyp_queue::{Entry, Queue};
use cyp_term::NoMemory;
use cyp_tree::Tree;
use std::alloc::Global;
use std::test::Fail as Failed;

/// A tree of a root and, where this is asked for, of two leaves below it, 1 and 2.
fn tree(alloc: Global, grown: bool) -> Result<Tree<u8, Spot>, NoMemory> {
    let mut tree = new_tree(alloc)?;
    if grown {
        let _grafted = graft(alloc, &mut tree, 0, &moves(alloc, 1, 2)?)?;
    }
    Ok(tree)
}

/// What is answered where there is an entry.
fn entry(priority: u32, leaf: u32) -> Option<Entry> {
    Some(Entry { priority, leaf })
}

#[test]
fn entries_come_by_priority_and_leaf(rt: HostRuntime) -> Result<(), Failed> {
    let alloc = rt.alloc();
    let mut queue = Queue::new(alloc);
    assert!(rt; queue.peek().is_none());
    queue.reserve(1)?;
    queue.put(5, 1);
    queue.push(3, 2)?;
    queue.push(3, 0)?;
    let root = tree(alloc, false)?;
    let grown = tree(alloc, true)?;
    assert_eq!(rt; queue.peek(), entry(3, 0));
    assert_eq!(rt; queue.pop_alive(&root), entry(3, 0));
    assert_eq!(rt; queue.pop_alive(&grown), entry(3, 2));
    assert_eq!(rt; queue.pop_alive(&grown), entry(5, 1));
    assert!(rt; queue.pop_alive(&grown).is_none());
    Ok(())
}

#[test]
fn entries_of_dead_leaves_are_dropped(rt: HostRuntime) -> Result<(), Failed> {
    let alloc = rt.alloc();
    let mut queue = Queue::new(alloc);
    queue.push(1, 0)?;
    queue.push(2, 7)?;
    queue.push(3, 2)?;
    queue.push(3, 1)?;
    queue.push(4, 9)?;
    let grown = tree(alloc, true)?;
    // 0 is grown, and no node has number 7: both are dropped
    assert_eq!(rt; queue.pop_alive(&grown), entry(3, 1));
    assert_eq!(rt; queue.peek(), entry(3, 2));
    assert_eq!(rt; queue.pop_alive(&grown), entry(3, 2));
    assert_eq!(rt; queue.peek(), entry(4, 9));
    assert!(rt; queue.pop_alive(&grown).is_none());
    assert!(rt; queue.peek().is_none());
    Ok(())
}
