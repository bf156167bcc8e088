ghost use Rattle.std.specs.Prelude.{◌≡◌, ◌≤◌, ◌<◌, ◌+◌, OnOk, IfOk};
ghost use Rattle.cyp_tree.specs.Trees.{Leaf};
ghost use Rattle.cyp_tree.specs.Sizes.{size};
ghost use Rattle.cyp_tree.specs.Places.{IsLive};
ghost use Rattle.cyp_search.specs.Frontiers.{IsFrontier, IsReady};
ghost use Rattle.cyp_search.specs.Expansions.{Puts, Expands};

use crate::moves::moves_of;
use cyp_queue::Queue;
use cyp_space::{Moves, Space, count_of_premises};
use cyp_term::{NoMemory, Shared};
use cyp_tree::Tree;
use std::alloc::Global;

/// A tree with entries for its live leaves.
#[derive(Drop)]
pub struct Frontier<R, N> {
    pub tree: Tree<R, N>,
    pub queue: Queue,
}

/// Adds the entry of the node of a number.
fn push_node<S: Space>(
    space: &S,
    tree: &Tree<S::Rule, S::Node>,
    number: u32,
    queue: &mut Queue,
) -> Result<(), NoMemory>
    requires below { number < size tree.now }
    requires frontier { IsFrontier (S.weight_of space.now) tree.now number queue.old.entries }
    ensures { OnOk result (IsFrontier (S.weight_of space.now) tree.now (number + 1) queue.new.entries) }
{
    let weight = space.weight(tree.node(number).get());
    queue.push(tree.cost(number) + weight, number)
}

/// Adds the entries of the nodes from a number on.
fn push_from<S: Space>(
    space: &S,
    tree: &Tree<S::Rule, S::Node>,
    first: u32,
    queue: &mut Queue,
) -> Result<(), NoMemory>
    requires below { first ≤ size tree.now }
    requires frontier { IsFrontier (S.weight_of space.now) tree.now first queue.old.entries }
    ensures { OnOk result (IsFrontier (S.weight_of space.now) tree.now (size tree.now) queue.new.entries) }
{
    for number in first..tree.count() {
        push_node(space, tree, number, queue)?;
    }
    Ok(())
}

/// A tree of one leaf, with its entry.
pub fn frontier_of<S: Space>(
    alloc: Global,
    space: &S,
    root: Shared<S::Node>,
) -> Result<Frontier<S::Rule, S::Node>, NoMemory>
    ensures tree { IfOk result (λ f. f.tree ≡ Leaf 0 root) }
    ensures frontier { IfOk result (λ f. IsFrontier (S.weight_of space.now) f.tree (size f.tree) f.queue.entries) }
{
    let tree = Tree::new(alloc, root)?;
    let mut queue = Queue::new(alloc);
    push_from(space, &tree, 0, &mut queue)?;
    Ok(Frontier { tree, queue })
}

/// Puts moves at a live leaf where the nodes then stay within the limit, and answers whether they do.
fn put_moves<S: Space>(
    alloc: Global,
    space: &S,
    limit: u32,
    frontier: &mut Frontier<S::Rule, S::Node>,
    leaf: u32,
    moves: &Moves<S::Rule, S::Node>,
) -> Result<bool, NoMemory>
    requires limit { limit ≤ 1000000 }
    requires live { IsLive frontier.old.tree leaf }
    requires ready { IsReady (S.weight_of space.now) frontier.old.tree leaf frontier.old.queue.entries }
    ensures { IfOk result (Puts (S.weight_of space.now) limit leaf moves.now frontier.old.tree frontier.new.tree frontier.new.queue.entries) }
{
    let first = frontier.tree.count();
    let grown = first + count_of_premises(moves.alts());
    if grown > limit {
        return Ok(false);
    }
    let _ = frontier.tree.graft(alloc, leaf, moves)?;
    push_from(space, &frontier.tree, first, &mut frontier.queue)?;
    Ok(true)
}

/// Expands the next leaf if the tree is open and its nodes then stay within the limit. It answers
/// whether it did.
pub fn expand<S: Space>(
    alloc: Global,
    space: &S,
    limit: u32,
    frontier: &mut Frontier<S::Rule, S::Node>,
) -> Result<bool, NoMemory>
    requires limit { limit ≤ 1000000 }
    requires frontier { IsFrontier (S.weight_of space.now) frontier.old.tree (size frontier.old.tree) frontier.old.queue.entries }
    ensures { IfOk result (Expands record { moves = S.moves_of space.now; weight = S.weight_of space.now } limit frontier.old.tree frontier.new.tree frontier.new.queue.entries) }
{
    let Some(entry) = frontier.queue.pop_alive(&frontier.tree) else {
        return Ok(false);
    };
    let moves = moves_of(alloc, space, frontier.tree.node(entry.leaf))?;
    put_moves(alloc, space, limit, frontier, entry.leaf, &moves)
}
