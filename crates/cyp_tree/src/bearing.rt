ghost use Rattle.std.specs.Prelude.{◌≡◌, ◌+◌, ◌<◌, ◌≤◌, [], ◌∷◌, true, length, IfOk, OnOk, vec_len, vec_capacity};
ghost use Rattle.cyp_tree.specs.declared.mark.Mark.TheVariants.{Undecided};
ghost use Rattle.cyp_tree.specs.Marked.{AreSized};
ghost use Rattle.cyp_space.specs.Alts.{premises_in};
ghost use Rattle.cyp_tree.specs.Enlarged.{AreBorn, HaveLeaves, HaveWays, HaveRoom, AreSame};

use crate::mark::Mark;
use crate::marks::Marks;
use cyp_space::Alt;
use cyp_term::NoMemory;
use std::alloc::Global;

impl Marks {
    /// The marks of a root that is a leaf.
    pub fn of_root(alloc: Global) -> Result<Marks, NoMemory>
        ensures statuses { IfOk result (λ m. m.statuses.items ≡ Undecided ∷ []) }
        ensures reached { IfOk result (λ m. m.reached.items ≡ true ∷ []) }
        ensures unfailed { IfOk result (λ m. m.unfailed.items ≡ 0 ∷ []) }
        ensures unsolved { IfOk result (λ m. m.unsolved.items ≡ []) }
    {
        let mut statuses = Vec::new(alloc);
        statuses.push(Mark::Undecided)?;
        let mut reached = Vec::new(alloc);
        reached.push(true)?;
        let mut unfailed = Vec::new(alloc);
        unfailed.push(0)?;
        Ok(Marks {
            statuses,
            reached,
            unfailed,
            unsolved: Vec::new(alloc),
        })
    }

    /// Makes room for the marks of more places and more ways.
    pub fn reserve(&mut self, places: usize, ways: usize) -> Result<(), NoMemory>
        ensures same { AreSame self.old self.new }
        ensures room { OnOk result (HaveRoom self.new places ways) }
    {
        self.statuses.reserve(places)?;
        self.reached.reserve(places)?;
        self.unfailed.reserve(places)?;
        self.unsolved.reserve(ways)?;
        Ok(())
    }

    /// Adds the marks of new leaves, open and reached, where there is room.
    fn bear_leaves(&mut self, count: u32)
        requires room { HaveRoom self.old count 0 }
        requires sized { AreSized self.old (length self.old.statuses.items) (length self.old.unsolved.items) }
        ensures { HaveLeaves self.old self.new (length self.old.statuses.items) count }
    {
        for _turn in 0..count {
            self.statuses.push(Mark::Undecided).unwrap();
            self.reached.push(true).unwrap();
            self.unfailed.push(0).unwrap();
        }
    }

    /// Adds the counters of new ways, where there is room.
    fn bear_ways<R, N>(&mut self, alts: &[Alt<R, N>])
        requires room { vec_len self.old.unsolved + length alts.now ≤ vec_capacity self.old.unsolved }
        ensures { HaveWays self.old self.new (length self.old.unsolved.items) alts.now (length alts.now) }
    {
        for alt in alts {
            self.unsolved.push(alt.premises().len() as u32).unwrap();
        }
    }

    /// Adds the marks of alternatives of a leaf and of their premises, so many, where there is room.
    pub fn bear<R, N>(&mut self, leaf: u32, alts: &[Alt<R, N>], count: u32)
        requires room { HaveRoom self.old count (length alts.now) }
        requires sized { AreSized self.old (length self.old.statuses.items) (length self.old.unsolved.items) }
        requires below { leaf < length self.old.statuses.items }
        requires few { length alts.now ≤ 48 }
        requires counted { count ≡ premises_in alts.now }
        ensures { AreBorn leaf (length self.old.statuses.items) (length self.old.unsolved.items) alts.now self.old self.new }
    {
        self.bear_leaves(count);
        self.bear_ways(alts);
        self.unfailed[leaf as usize] = alts.len() as u32;
    }
}
