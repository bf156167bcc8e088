ghost use Rattle.std.specs.Prelude.{IsTrue, ◌≡◌};
ghost use Rattle.cyp_heap.specs.Formed.{insts_fit};
ghost use Rattle.cyp_heap.specs.Keeps.{KeepsNode};

use crate::chunk::Heap;
use crate::pred::Preds;
use cyp_term::{Copied, Exact, List, Lit, NoMemory, Shared, Subst, Term, Var};
use std::alloc::Global;
use std::marker::Model;

/// A goal `{pre} {post}` over program variables, with its existentials. A variable that is neither is
/// a logical variable.
#[derive(Debug, Drop, PartialEq, Eq, Hash)]
pub struct Goal {
    pub program: List<Var>,
    pub exist: List<Var>,
    pub pure_pre: List<Lit>,
    pub pre: Heap,
    pub pure_post: List<Lit>,
    pub post: Heap,
}

/// A companion above a node: its goal, its measure in its own variables, the map from these to the
/// node's, and the measure in the node's variables.
#[derive(Debug, Drop, PartialEq, Eq, Hash)]
pub struct Link {
    pub goal: Shared<Goal>,
    pub own: List<Term>,
    pub map: Subst,
    pub tuple: List<Term>,
}

/// What a step makes before the normal form: a goal whose instances fit, its predicates, and the
/// companions above it, the oldest first.
#[derive(Debug, Drop, PartialEq, Eq, Hash)]
pub struct Raw {
    preds: Shared<Preds>,
    goal: Goal,
    links: List<Link>,
}

impl Model for Raw {
    ghost use Rattle.std.specs.Prelude.{IsTrue};
    ghost use Rattle.cyp_heap.specs.Formed.{insts_fit};
    ghost use Rattle.cyp_heap.specs.NodeValue.{NodeValue};

    ghost Value = { NodeValue };

    ghost view = { λ n. record { preds = n.preds; goal = n.goal; links = n.links } };

    ghost invariant = { λ n. IsTrue (insts_fit n.preds n.goal) };

    ghost inverse = { λ n. record { preds = n.preds; goal = n.goal; links = n.links } };
}

/// A goal with its predicates and the companions above it, the oldest first. No limit is passed, the
/// instances fit, the companions are well linked, and the numbers of variables are below 32.
#[derive(Debug, Drop, PartialEq, Eq, Hash)]
pub struct Node {
    preds: Shared<Preds>,
    goal: Goal,
    links: List<Link>,
}

impl Model for Node {
    ghost use Rattle.cyp_heap.specs.Keeps.{KeepsNode};
    ghost use Rattle.cyp_heap.specs.NodeValue.{NodeValue};

    ghost Value = { NodeValue };

    ghost view = { λ n. record { preds = n.preds; goal = n.goal; links = n.links } };

    ghost invariant = { λ n. KeepsNode (record { preds = n.preds; goal = n.goal; links = n.links }) };

    ghost inverse = { λ n. record { preds = n.preds; goal = n.goal; links = n.links } };
}

impl Raw {
    /// The goal over these predicates, below these companions.
    pub fn new(preds: Shared<Preds>, goal: Goal, links: List<Link>) -> Raw
        requires { IsTrue (insts_fit preds goal) }
        ensures { result ≡ record { preds = preds; goal = goal; links = links } }
    {
        Raw { preds, goal, links }
    }

    /// The predicates.
    pub fn preds(&self) -> &Shared<Preds>
        ensures preds { result.now ≡ self.now.preds }
        ensures fits { IsTrue (insts_fit self.now.preds self.now.goal) }
    {
        &self.preds
    }

    /// The goal.
    pub fn goal(&self) -> &Goal
        ensures goal { result.now ≡ self.now.goal }
        ensures fits { IsTrue (insts_fit self.now.preds self.now.goal) }
    {
        &self.goal
    }

    /// The companions, the oldest first.
    pub fn links(&self) -> &List<Link>
        ensures { result.now ≡ self.now.links }
    {
        &self.links
    }

    /// The predicates, the goal and the companions.
    pub fn into_parts(self) -> (Shared<Preds>, Goal, List<Link>)
        ensures parts { result ≡ (self.preds, self.goal, self.links) }
        ensures fits { IsTrue (insts_fit self.preds self.goal) }
    {
        let Raw { preds, goal, links } = self;
        (preds, goal, links)
    }
}

impl Node {
    /// The goal over these predicates, below these companions.
    pub fn new(preds: Shared<Preds>, goal: Goal, links: List<Link>) -> Node
        requires { KeepsNode (record { preds = preds; goal = goal; links = links }) }
        ensures { result ≡ record { preds = preds; goal = goal; links = links } }
    {
        Node { preds, goal, links }
    }

    /// The predicates.
    pub fn preds(&self) -> &Shared<Preds>
        ensures preds { result.now ≡ self.now.preds }
        ensures keeps { KeepsNode self.now }
    {
        &self.preds
    }

    /// The goal.
    pub fn goal(&self) -> &Goal
        ensures goal { result.now ≡ self.now.goal }
        ensures keeps { KeepsNode self.now }
    {
        &self.goal
    }

    /// The companions, the oldest first.
    pub fn links(&self) -> &List<Link>
        ensures links { result.now ≡ self.now.links }
        ensures keeps { KeepsNode self.now }
    {
        &self.links
    }

    /// The predicates, the goal and the companions.
    pub fn into_parts(self) -> (Shared<Preds>, Goal, List<Link>)
        ensures parts { result ≡ (self.preds, self.goal, self.links) }
        ensures keeps { KeepsNode self }
    {
        let Node { preds, goal, links } = self;
        (preds, goal, links)
    }
}

impl Copied for Goal {
    fn copy(&self, alloc: Global) -> Result<Goal, NoMemory> {
        Ok(Goal {
            program: self.program.copy(alloc)?,
            exist: self.exist.copy(alloc)?,
            pure_pre: self.pure_pre.copy(alloc)?,
            pre: self.pre.copy(alloc)?,
            pure_post: self.pure_post.copy(alloc)?,
            post: self.post.copy(alloc)?,
        })
    }
}

impl Copied for Link {
    fn copy(&self, alloc: Global) -> Result<Link, NoMemory> {
        Ok(Link {
            goal: self.goal.copy(alloc)?,
            own: self.own.copy(alloc)?,
            map: self.map.copy(alloc)?,
            tuple: self.tuple.copy(alloc)?,
        })
    }
}

impl Copied for Raw {
    fn copy(&self, alloc: Global) -> Result<Raw, NoMemory> {
        Ok(Raw {
            preds: self.preds.copy(alloc)?,
            goal: self.goal.copy(alloc)?,
            links: self.links.copy(alloc)?,
        })
    }
}

impl Copied for Node {
    fn copy(&self, alloc: Global) -> Result<Node, NoMemory> {
        Ok(Node {
            preds: self.preds.copy(alloc)?,
            goal: self.goal.copy(alloc)?,
            links: self.links.copy(alloc)?,
        })
    }
}

impl Exact for Goal {
    ghost use Rattle.cyp_heap.specs.ExactNodes.{exact_goal};

    ghost exact = { exact_goal };
}

impl Exact for Link {
    ghost use Rattle.cyp_heap.specs.ExactNodes.{exact_link};

    ghost exact = { exact_link };
}

impl Exact for Raw {
    ghost use Rattle.cyp_heap.specs.ExactNodes.{exact_raw};

    ghost exact = { exact_raw };
}

impl Exact for Node {
    ghost use Rattle.cyp_heap.specs.ExactNodes.{exact_node};

    ghost exact = { exact_node };
}
