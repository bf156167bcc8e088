ghost use Rattle.std.specs.Prelude.{◌≡◌, ℕ, [], ◌++◌, ◌+◌, ◌<◌, ◌≤◌, length, reverse, IfOk, OnOk};
ghost use Rattle.std.specs.List.{slice_get};
ghost use Rattle.std.specs.Option.{option_map};
ghost use Rattle.cyp_tree.specs.declared.mark.Mark.TheVariants.{Solved as is_solved};
ghost use Rattle.cyp_tree.specs.declared.places.Way.{Way};
ghost use Rattle.cyp_tree.specs.Derivations.{plain_derivation};
ghost use Rattle.cyp_tree.specs.Numbers.{run_from};
ghost use Rattle.cyp_tree.specs.Standing.{IsIn, IsLinked};
ghost use Rattle.cyp_tree.specs.Marked.{status_at, unsolved_at};
ghost use Rattle.cyp_tree.specs.Arenas.{IsArena};
ghost use Rattle.cyp_tree.specs.Choosing.{IsFirstSolved, IsTaken, Rebuilds, derived_at, made_of, Joins};

use crate::arena::Arena;
use crate::marks::Marks;
use crate::places::Run;
use cyp_space::Solved;
use cyp_term::{Copied, List, NoMemory};
use std::alloc::Global;

impl Marks {
    /// The first way of a run whose premises are all solved, where there is one.
    fn solved_way(&self, run: Run) -> u32
        requires inside { run.first + run.count ≤ length self.now.unsolved.items }
        requires few { length self.now.unsolved.items < 4294967296 }
        requires some { (w : ℕ) × IsIn w run × (unsolved_at self.now w ≡ 0) }
        ensures { IsFirstSolved (unsolved_at self.now) run result }
    {
        let mut way = run.first;
        while self.unsolved[way as usize] > 0 {
            way += 1;
        }
        way
    }
}

/// Lists the numbers of a run behind others.
fn push_run(numbers: &mut Vec<u32>, run: Run) -> Result<(), NoMemory>
    requires { run.first + run.count < 4294967296 }
    ensures { OnOk result (numbers.new.items ≡ numbers.old.items ++ run_from run.first run.count) }
{
    for number in run.first..run.first + run.count {
        numbers.push(number)?;
    }
    Ok(())
}

impl<R, N> Arena<R, N> {
    /// The first way of a solved place whose premises are all solved.
    fn taken_way(&self, at: u32) -> u32
        requires arena { IsArena self.now.places.items self.now.ways.items self.now.marks }
        requires below { at < length self.now.places.items }
        requires solved { status_at self.now.marks at ≡ is_solved }
        ensures { IsTaken (unsolved_at self.now.marks) self.now.places.items at result }
    {
        match self.places[at as usize].ways {
            Some(run) => self.marks.solved_way(run),
            None => unreachable!(),
        }
    }

    /// The ways that the derivation of a solved root takes. Read from the last to the first, a way
    /// comes after those of its premises, and these in their order.
    pub fn taken_ways(&self, alloc: Global) -> Result<Vec<u32>, NoMemory>
        requires arena { IsArena self.now.places.items self.now.ways.items self.now.marks }
        requires solved { status_at self.now.marks 0 ≡ is_solved }
        ensures { IfOk result (λ order. Rebuilds self.now.places.items self.now.ways.items (derived_at self.now.root self.now.places.items self.now.ways.items 0) (reverse order.items) []) }
    {
        let mut order = Vec::new(alloc);
        let mut pending = Vec::new(alloc);
        pending.push(0)?;
        while let Some(at) = pending.pop() {
            let way = self.taken_way(at);
            order.push(way)?;
            push_run(&mut pending, self.ways[way as usize].parts)?;
        }
        Ok(order)
    }
}

impl<R: Copied + Drop, N: Drop> Arena<R, N> {
    /// Makes of the last derivations, one for each premise of a way, that of the way's node.
    fn join(&self, alloc: Global, way: u32, made: &mut Vec<Solved<R, N>>) -> Result<(), NoMemory>
        requires linked { IsLinked self.now.places.items self.now.ways.items }
        requires below { way < length self.now.ways.items }
        requires enough { (y : Way R) → slice_get self.now.ways.items way ≡ Some y → y.parts.count ≤ length made.old.items }
        ensures { OnOk result (Joins self.now.places.items self.now.ways.items way made.old.items made.new.items) }
    {
        let way = &self.ways[way as usize];
        let keep = made.len() - way.parts.count as usize;
        let parts = made.split_off(keep)?;
        made.push(Solved {
            node: self.places[way.above as usize].node.copy(alloc)?,
            rule: way.rule.copy(alloc)?,
            parts: List::from_vec(parts),
        })?;
        Ok(())
    }

    /// The derivation that these ways give, read from the last to the first.
    pub fn rebuilt(
        &self,
        alloc: Global,
        mut order: Vec<u32>,
    ) -> Result<Option<Solved<R, N>>, NoMemory>
        requires linked { IsLinked self.now.places.items self.now.ways.items }
        requires order { Rebuilds self.now.places.items self.now.ways.items (derived_at self.now.root self.now.places.items self.now.ways.items 0) (reverse order.items) [] }
        ensures { IfOk result (λ d. option_map plain_derivation d ≡ derived_at self.now.root self.now.places.items self.now.ways.items 0) }
    {
        let mut made = Vec::new(alloc);
        while let Some(way) = order.pop() {
            self.join(alloc, way, &mut made)?;
        }
        Ok(made.pop())
    }
}
