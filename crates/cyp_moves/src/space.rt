ghost use Rattle.std.specs.Prelude.{◌≡◌};

use crate::alts::first_priced;
use crate::rows::built_rows;
use cyp_heap::Node;
use cyp_space::{Moves, Space, Stop, Stopped};
use cyp_step::{Rule, dead};
use cyp_term::{Fail, List, Shared};
use std::alloc::Global;

/// The nodes with the moves of the move table, which unfolds an instance of a predicate this often
/// at most.
#[derive(Clone, Copy, Debug, PartialEq, Eq)]
pub struct GoalSpace {
    pub unfold: u8,
}

impl Space for GoalSpace {
    ghost use Rattle.cyp_moves.specs.Moves.{moves, weight};

    type Node = Node;

    type Rule = Rule;

    ghost moves_of = { λ s n. moves s.«unfold» n };

    ghost weight_of = { λ s n. weight n };

    fn moves<P: Stop>(
        &self,
        alloc: Global,
        node: &Shared<Node>,
        _stop: &mut P,
    ) -> Result<Moves<Rule, Node>, Fail<Stopped>> {
        let node = node.get();
        if dead(alloc, node.goal())? {
            return Ok(Moves::new(List::from_vec(Vec::new(alloc))));
        }
        let rows = built_rows(alloc, node)?;
        let alts = first_priced(alloc, rows)?;
        Ok(Moves::new(alts))
    }

    fn weight(&self, node: &Node) -> u32 {
        let goal = node.goal();
        (goal.pre.chunks().len() + 2 * goal.post.chunks().len()) as u32
    }

    fn same(&self, other: &GoalSpace) -> bool {
        self.unfold == other.unfold
    }
}
