ghost use Rattle.std.specs.Prelude.{◌≡◌, [], ◌+◌, ◌<◌, ◌≤◌, length, true, vec_len, vec_capacity};
ghost use Rattle.cyp_tree.specs.declared.mark.Mark.TheVariants.{Undecided};
ghost use Rattle.cyp_tree.specs.Standing.{IsLinked, IsIn};
ghost use Rattle.cyp_tree.specs.Told.{IsTold, IsToldBut, AreCounted, AreReached};
ghost use Rattle.cyp_tree.specs.Marked.{status_at, reached_at, unsolved_at, unfailed_at, AreSized, IsOpenAbove, DecidesNode};
ghost use Rattle.cyp_tree.specs.Dying.{trues, Retired, IsPremise, AreWithin, IsUnder, IsBeside, IsNoted, Sweeping, IsSwept, IsBuried};

use crate::mark::Mark;
use crate::marks::{Marks, above_of};
use crate::places::{Place, Run, Way};

impl Marks {
    /// Takes a node from those that are reached, and lists it, if it is one of them.
    fn retire_reached(&mut self, at: u32, gone: &mut Vec<u32>)
        requires inside { at < length self.old.reached.items }
        requires room { length gone.old.items + trues self.old.reached.items ≤ vec_capacity gone.old }
        ensures { Retired (λ j. j ≡ at) self.old self.new gone.old gone.new }
    {
        if self.reached[at as usize] {
            self.retire(at, gone);
        }
    }

    /// Takes the nodes of a run from those that are reached, and lists those that were.
    fn retire_run(&mut self, run: Run, gone: &mut Vec<u32>)
        requires inside { run.first + run.count ≤ length self.old.reached.items }
        requires few { length self.old.reached.items < 4294967296 }
        requires room { length gone.old.items + trues self.old.reached.items ≤ vec_capacity gone.old }
        ensures { Retired (λ j. IsIn j run) self.old self.new gone.old gone.new }
    {
        for at in run.first..run.first + run.count {
            self.retire_reached(at, gone);
        }
    }

    /// The same for the premises of all ways of a run.
    fn retire_ways<R>(&mut self, ways: &[Way<R>], run: Run, gone: &mut Vec<u32>)
        requires inside { run.first + run.count ≤ length ways.now }
        requires few_ways { length ways.now < 4294967296 }
        requires parts { AreWithin ways.now (length self.old.reached.items) }
        requires few { length self.old.reached.items < 4294967296 }
        requires room { length gone.old.items + trues self.old.reached.items ≤ vec_capacity gone.old }
        ensures { Retired (IsPremise ways.now run) self.old self.new gone.old gone.new }
    {
        for way in run.first..run.first + run.count {
            self.retire_run(ways[way as usize].parts, gone);
        }
    }

    /// Notes that an open node is decided.
    fn decide<R, N>(
        &mut self,
        places: &[Place<N>],
        ways: &[Way<R>],
        at: u32,
        status: Mark,
    ) -> Option<u32>
        requires linked { IsLinked places.now ways.now }
        requires sized { AreSized self.old (length places.now) (length ways.now) }
        requires below { at < length places.now }
        requires told { IsToldBut at status (status_at self.old) places.now ways.now }
        requires counted { AreCounted (status_at self.old) (unsolved_at self.old) (unfailed_at self.old) places.now ways.now }
        requires undecided { status_at self.old at ≡ Undecided }
        requires above { IsOpenAbove (status_at self.old) places.now ways.now at }
        requires decided { status ≡ Undecided → ⊥ }
        ensures { DecidesNode status at places.now ways.now self.old self.new result }
    {
        match status {
            Mark::Solved => self.solve(places, ways, at),
            Mark::Failed => self.fail(places, ways, at),
            Mark::Undecided => unreachable!(),
        }
    }

    /// Notes that an open node is decided, and each node above that is decided by that. They are no
    /// longer reached, and are listed. The last of them is the answer.
    fn climb<R, N>(
        &mut self,
        places: &[Place<N>],
        ways: &[Way<R>],
        leaf: u32,
        status: Mark,
        gone: &mut Vec<u32>,
    ) -> u32
        requires linked { IsLinked places.now ways.now }
        requires sized { AreSized self.old (length places.now) (length ways.now) }
        requires told { IsToldBut leaf status (status_at self.old) places.now ways.now }
        requires counted { AreCounted (status_at self.old) (unsolved_at self.old) (unfailed_at self.old) places.now ways.now }
        requires reached { AreReached (status_at self.old) (reached_at self.old) places.now ways.now }
        requires leaf { reached_at self.old leaf ≡ true }
        requires decided { status ≡ Undecided → ⊥ }
        requires empty { gone.old.items ≡ [] }
        requires room { trues self.old.reached.items ≤ vec_capacity gone.old }
        ensures { IsNoted status result places.now ways.now self.old self.new gone.old gone.new }
    {
        let mut top = leaf;
        self.retire(top, gone);
        while let Some(above) = self.decide(places, ways, top, status) {
            top = above;
            self.retire(top, gone);
        }
        top
    }

    /// Takes the premises of a node's way from those that are reached, where it has failed.
    fn retire_beside<R, N>(
        &mut self,
        places: &[Place<N>],
        ways: &[Way<R>],
        at: u32,
        status: Mark,
        gone: &mut Vec<u32>,
    )
        requires linked { IsLinked places.now ways.now }
        requires below { at < length places.now }
        requires long { length self.old.reached.items ≡ length places.now }
        requires few { length places.now < 4294967296 }
        requires room { length gone.old.items + trues self.old.reached.items ≤ vec_capacity gone.old }
        ensures { Retired (IsBeside places.now ways.now status at) self.old self.new gone.old gone.new }
    {
        let Mark::Failed = status else {
            return;
        };
        if at > 0 {
            let (way, _node) = above_of(places, ways, at);
            self.retire_run(ways[way as usize].parts, gone);
        }
    }

    /// Takes the premises of all ways of a node from those that are reached.
    fn retire_under<R, N>(
        &mut self,
        places: &[Place<N>],
        ways: &[Way<R>],
        at: u32,
        gone: &mut Vec<u32>,
    )
        requires linked { IsLinked places.now ways.now }
        requires below { at < length places.now }
        requires long { length self.old.reached.items ≡ length places.now }
        requires few { length places.now < 4294967296 }
        requires few_ways { length ways.now < 4294967296 }
        requires room { length gone.old.items + trues self.old.reached.items ≤ vec_capacity gone.old }
        ensures { Retired (IsUnder places.now ways.now at) self.old self.new gone.old gone.new }
    {
        if let Some(run) = places[at as usize].ways {
            self.retire_ways(ways, run, gone);
        }
    }

    /// Takes all that is under listed nodes from those that are reached.
    fn sweep<R, N>(&mut self, places: &[Place<N>], ways: &[Way<R>], gone: &mut Vec<u32>)
        requires linked { IsLinked places.now ways.now }
        requires long { length self.old.reached.items ≡ length places.now }
        requires few { length places.now < 4294967296 }
        requires few_ways { length ways.now < 4294967296 }
        requires sweeping { Sweeping (status_at self.old) (reached_at self.old) gone.old.items 0 places.now ways.now }
        requires room { length gone.old.items + trues self.old.reached.items ≤ vec_capacity gone.old }
        ensures { IsSwept places.now ways.now self.old self.new gone.old gone.new }
    {
        let mut next = 0;
        while next < gone.len() {
            let at = gone[next];
            self.retire_under(places, ways, at, gone);
            next += 1;
        }
    }

    /// Notes that a reached leaf is decided, and all that follows from it, and lists the numbers that
    /// are no longer reached.
    pub fn bury<R, N>(
        &mut self,
        places: &[Place<N>],
        ways: &[Way<R>],
        leaf: u32,
        status: Mark,
        gone: &mut Vec<u32>,
    )
        requires linked { IsLinked places.now ways.now }
        requires sized { AreSized self.old (length places.now) (length ways.now) }
        requires few { length places.now < 4294967296 }
        requires few_ways { length ways.now < 4294967296 }
        requires told { IsToldBut leaf status (status_at self.old) places.now ways.now }
        requires counted { AreCounted (status_at self.old) (unsolved_at self.old) (unfailed_at self.old) places.now ways.now }
        requires reached { AreReached (status_at self.old) (reached_at self.old) places.now ways.now }
        requires leaf { reached_at self.old leaf ≡ true }
        requires decided { status ≡ Undecided → ⊥ }
        requires empty { gone.old.items ≡ [] }
        requires room { trues self.old.reached.items ≤ vec_capacity gone.old }
        ensures { IsBuried places.now ways.now self.old self.new gone.new.items }
    {
        let top = self.climb(places, ways, leaf, status, gone);
        self.retire_beside(places, ways, top, status, gone);
        self.sweep(places, ways, gone);
    }

    /// The same, where the leaf may also stay open: then nothing follows.
    pub fn settle<R, N>(
        &mut self,
        places: &[Place<N>],
        ways: &[Way<R>],
        leaf: u32,
        status: Mark,
        gone: &mut Vec<u32>,
    )
        requires linked { IsLinked places.now ways.now }
        requires sized { AreSized self.old (length places.now) (length ways.now) }
        requires few { length places.now < 4294967296 }
        requires few_ways { length ways.now < 4294967296 }
        requires told { IsToldBut leaf status (status_at self.old) places.now ways.now }
        requires undecided { status ≡ Undecided → IsTold (status_at self.old) places.now ways.now }
        requires counted { AreCounted (status_at self.old) (unsolved_at self.old) (unfailed_at self.old) places.now ways.now }
        requires reached { AreReached (status_at self.old) (reached_at self.old) places.now ways.now }
        requires leaf { reached_at self.old leaf ≡ true }
        requires empty { gone.old.items ≡ [] }
        requires room { trues self.old.reached.items ≤ vec_capacity gone.old }
        ensures { IsBuried places.now ways.now self.old self.new gone.new.items }
    {
        match status {
            Mark::Undecided => {}
            Mark::Solved => self.bury(places, ways, leaf, Mark::Solved, gone),
            Mark::Failed => self.bury(places, ways, leaf, Mark::Failed, gone),
        }
    }
}
