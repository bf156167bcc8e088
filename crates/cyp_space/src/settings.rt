ghost use Rattle.std.specs.Prelude.{◌≡◌, ◌≤◌};

use std::marker::Model;

/// The limits of a search: its budget of expansions (1 to 100,000), how often a predicate may be
/// unfolded (at most 3), its workers (1 to 32), and the most nodes of its tree (1 to 1,000,000).
#[derive(Clone, Copy, Debug, PartialEq, Eq, Hash)]
pub struct Settings {
    budget: u32,
    unfold: u8,
    workers: u32,
    nodes: u32,
}

impl Model for Settings {
    ghost use Rattle.cyp_space.specs.SettingsValue.{SettingsValue, AreSettings};

    ghost Value = { SettingsValue };

    ghost view = { λ s. record { budget = s.budget; «unfold» = s.unfold; workers = s.workers; nodes = s.nodes } };

    ghost invariant = { λ s. AreSettings s.budget s.unfold s.workers s.nodes };

    ghost inverse = { λ s. record { budget = s.budget; «unfold» = s.unfold; workers = s.workers; nodes = s.nodes } };
}

impl Settings {
    ghost use Rattle.cyp_space.specs.SettingsValue.{AreSettings};

    /// The limits with these values, each within its bounds.
    pub fn new(budget: u32, unfoldings: u8, workers: u32, nodes: u32) -> Settings
        requires { AreSettings budget unfoldings workers nodes }
        ensures { result ≡ record { budget = budget; «unfold» = unfoldings; workers = workers; nodes = nodes } }
    {
        Settings {
            budget,
            unfold: unfoldings,
            workers,
            nodes,
        }
    }

    /// The most expansions that a search may take, 1 to 100,000.
    pub fn budget(&self) -> u32
        ensures value { result ≡ self.now.budget }
        ensures least { 1 ≤ result }
        ensures most { result ≤ 100000 }
    {
        self.budget
    }

    /// How often a predicate may be unfolded, at most 3 times.
    pub fn unfold(&self) -> u8
        ensures value { result ≡ self.now.unfold }
        ensures most { result ≤ 3 }
    {
        self.unfold
    }

    /// How many workers the search may use, 1 to 32.
    pub fn workers(&self) -> u32
        ensures value { result ≡ self.now.workers }
        ensures least { 1 ≤ result }
        ensures most { result ≤ 32 }
    {
        self.workers
    }

    /// The most nodes that the tree of a search may have, 1 to 1,000,000.
    pub fn nodes(&self) -> u32
        ensures value { result ≡ self.now.nodes }
        ensures least { 1 ≤ result }
        ensures most { result ≤ 1000000 }
    {
        self.nodes
    }
}

impl Default for Settings {
    ghost use Rattle.std.specs.Prelude.{◌≡◌};

    ghost is_default = { λ s. s ≡ record { budget = 20000; «unfold» = 2; workers = 1; nodes = 500000 } };

    fn default() -> Settings {
        Settings::new(20000, 2, 1, 500000)
    }
}
