ghost use Rattle.std.specs.Prelude.{◌≡◌, ◌+◌, ◌<◌, ◌≤◌, [], IfSome, MatchOption, false, get_or, length, not, replicate, set, true};
ghost use Rattle.std.specs.List.{filter};
ghost use Rattle.cyp_goal.specs.Numbering.{rank_in};
ghost use Rattle.cyp_goal.specs.VarTables.{slot};
ghost use Rattle.cyp_term.specs.Terms.{is_set_var, var_eq, var_in, with_new};

use cyp_term::{Sort, Var};
use std::marker::Model;

const FIRST: Var = Var {
    sort: Sort::Int,
    number: 0,
};

fn no_vars() -> [Var; 768]
    ensures { length result ≡ 768 }
{
    [FIRST; 768]
}

/// What is known of the variables of one sort: one more than the place of each among them by its
/// number, or 0, and how many there are.
#[derive(Drop)]
struct Slots {
    places: [u16; 256],
    filled: u16,
}

impl Slots {
    fn new() -> Slots
        ensures places { result.places ≡ replicate 256 0 }
        ensures filled { result.filled ≡ 0 }
    {
        Slots {
            places: [0; 256],
            filled: 0,
        }
    }

    fn place(&self, number: u8) -> u16
        ensures place { result ≡ get_or self.now.places number 0 }
        ensures low { number < 256 }
    {
        self.places[number as usize]
    }

    fn fill(&mut self, number: u8)
        requires { self.old.filled < 256 }
        ensures places { self.new.places ≡ set self.old.places number (self.old.filled + 1) }
        ensures filled { self.new.filled ≡ self.old.filled + 1 }
    {
        self.filled += 1;
        self.places[number as usize] = self.filled;
    }
}

/// Variables without repeats in the order in which they came. It takes no memory, and tells at once
/// whether a variable is there and which place it has among those of its sort.
#[derive(Drop)]
pub(crate) struct VarTable {
    order: [Var; 768],
    len: usize,
    ints: Slots,
    cards: Slots,
    sets: Slots,
}

impl Model for VarTable {
    ghost use Rattle.std.specs.Prelude.{List, take};
    ghost use Rattle.cyp_goal.specs.VarTables.{IsTable};
    ghost use Rattle.cyp_term.specs.declared.term.Var.{Var};

    ghost Value = { List Var };

    ghost view = { λ t. take t.len t.order };

    ghost invariant = { λ t. IsTable t.order t.len t.ints.places t.ints.filled t.cards.places t.cards.filled t.sets.places t.sets.filled };
}

impl VarTable {
    /// A table without variables.
    pub(crate) fn new() -> VarTable
        ensures { result ≡ [] }
    {
        VarTable {
            order: no_vars(),
            len: 0,
            ints: Slots::new(),
            cards: Slots::new(),
            sets: Slots::new(),
        }
    }

    fn slot(&self, var: Var) -> u16
        ensures place { result ≡ slot self.now var }
        ensures most { result ≤ 256 }
        ensures low { var.number < 256 }
    {
        match var.sort {
            Sort::Int => self.ints.place(var.number),
            Sort::Card => self.cards.place(var.number),
            Sort::Set => self.sets.place(var.number),
        }
    }

    /// How many variables there are.
    pub(crate) fn len(&self) -> usize
        ensures { result ≡ length self.now }
    {
        self.len
    }

    /// How many integers and cardinalities there are.
    pub(crate) fn count_ints(&self) -> usize
        ensures { result ≡ length (filter (λ v. not (is_set_var v)) self.now) }
    {
        self.ints.filled as usize + self.cards.filled as usize
    }

    /// How many sets there are.
    pub(crate) fn count_sets(&self) -> usize
        ensures { result ≡ length (filter is_set_var self.now) }
    {
        self.sets.filled as usize
    }

    /// Whether the variable is there.
    pub(crate) fn has(&self, var: Var) -> bool
        ensures has { result ≡ var_in var self.now }
        ensures low { var.number < 256 }
    {
        self.slot(var) != 0
    }

    /// The variable's place among those of its sort, counted from 0, or `None` where it isn't there.
    pub(crate) fn rank(&self, var: Var) -> Option<u8>
        ensures there { IfSome result (λ _. var_in var self.now ≡ true) }
        ensures rank { MatchOption result (var_in var self.now ≡ false) (λ k. k ≡ rank_in self.now var) }
    {
        match self.slot(var) {
            0 => None,
            slot => Some((slot - 1) as u8),
        }
    }

    /// Adds the variable at the end, unless it is there.
    pub(crate) fn add(&mut self, var: Var)
        ensures { self.new ≡ with_new var_eq self.old var }
    {
        if self.has(var) {
            return;
        }
        self.order[self.len] = var;
        self.len += 1;
        match var.sort {
            Sort::Int => self.ints.fill(var.number),
            Sort::Card => self.cards.fill(var.number),
            Sort::Set => self.sets.fill(var.number),
        }
    }
}
