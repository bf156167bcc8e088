ghost use Rattle.std.specs.Prelude.{◌≡◌, ◌+◌, ◌<◌, ◌↔◌, IsTrue, MatchOption};
ghost use Rattle.cyp_space.specs.Counts.{solved_count};

use cyp_term::{List, Shared};

/// A derivation: a node with the rule that solves it and the derivations of the rule's premises.
#[derive(Debug)]
pub struct Solved<R, N> {
    pub node: Shared<N>,
    pub rule: R,
    pub parts: List<Solved<R, N>>,
}

impl<R, N> Solved<R, N> {
    /// Puts another tree in place of the first part, and answers that part.
    fn swap_first(&mut self, other: Solved<R, N>) -> Solved<R, N>
        requires { 1 < solved_count self.old }
        ensures same { solved_count self.new + solved_count result ≡ solved_count self.old + solved_count other }
        ensures less { solved_count result < solved_count self.old }
    {
        self.parts.set(0, other)
    }

    fn pop_part(&mut self) -> Option<Solved<R, N>>
        ensures { MatchOption result (solved_count self.new ≡ 1) (λ part. solved_count self.new + solved_count part ≡ solved_count self.old) }
    {
        self.parts.pop()
    }

    fn has_parts(&self) -> bool
        ensures { IsTrue result ↔ (1 < solved_count self.now) }
    {
        self.parts.len() > 0
    }
}

impl<R: Drop, N: Drop> Solved<R, N> {
    fn let_go(self)
        requires { solved_count self ≡ 1 }
    {
        let Solved {
            node: _,
            rule: _,
            parts,
        } = self;
        parts.destroy_empty();
    }
}

/// Turns the tree about, so that however deep it is, it takes neither stack nor memory.
impl<R: Drop, N: Drop> Drop for Solved<R, N> {
    fn drop(self) {
        let mut root = self;
        while let Some(part) = root.pop_part() {
            if !root.has_parts() {
                root.let_go();
                root = part;
                continue;
            }
            let mut hand = part;
            while hand.has_parts() {
                let next = hand.swap_first(root);
                root = hand;
                hand = next;
            }
            hand.let_go();
        }
        root.let_go();
    }
}
