ghost use Rattle.std.specs.Prelude.{◌≡◌, [], ◌∷◌, ◌+◌, ◌<◌, ◌≤◌, slice_get, MatchOption, OnOk, OnErr};
ghost use Rattle.cyp_tree.specs.Places.{IsLive};
ghost use Rattle.cyp_queue.specs.Entries.{put_entry, AreInOrder, PopsAlive};

use crate::entry::Entry;
use cyp_term::NoMemory;
use cyp_tree::Tree;
use std::alloc::Global;
use std::cmp::Reverse;
use std::collections::BinaryHeap;
use std::marker::Model;

/// Entries in the order of their priorities and then of their leaves, with room for more.
#[derive(Drop)]
pub struct Queue {
    heap: BinaryHeap<Reverse<Entry>>,
    spare: usize,
}

impl Model for Queue {
    ghost use Rattle.std.specs.BinaryHeap.{heap_items, heap_len, heap_capacity};
    ghost use Rattle.cyp_queue.specs.Entries.{Entries};
    ghost use Rattle.cyp_queue.specs.Kept.{entries_of, IsKept};

    ghost Value = { Entries };

    ghost view = { λ q. record { entries = entries_of (heap_items q.heap); spare = q.spare } };

    ghost invariant = { λ q. IsKept (heap_items q.heap) (heap_len q.heap) (heap_capacity q.heap) q.spare };
}

impl Queue {
    /// No entries, and no room.
    pub fn new(alloc: Global) -> Queue
        ensures { result ≡ record { entries = []; spare = 0 } }
    {
        Queue {
            heap: BinaryHeap::new(alloc),
            spare: 0,
        }
    }

    /// Makes room for at least so many more entries. Room that was there stays.
    pub fn reserve(&mut self, more: usize) -> Result<(), NoMemory>
        ensures entries { self.new.entries ≡ self.old.entries }
        ensures room { OnOk result (more ≤ self.new.spare) }
        ensures kept { self.old.spare ≤ self.new.spare }
    {
        if self.spare < more {
            self.heap.reserve(more)?;
            self.spare = more;
        }
        Ok(())
    }

    /// Adds an entry, where there is room.
    pub fn put(&mut self, priority: u32, leaf: u32)
        requires { 0 < self.old.spare }
        ensures entries { self.new.entries ≡ put_entry record { priority = priority; leaf = leaf } self.old.entries }
        ensures spare { self.new.spare + 1 ≡ self.old.spare }
    {
        self.heap.push(Reverse(Entry { priority, leaf })).unwrap();
        self.spare -= 1;
    }

    /// Makes room for an entry and adds it.
    pub fn push(&mut self, priority: u32, leaf: u32) -> Result<(), NoMemory>
        ensures entries { OnOk result (self.new.entries ≡ put_entry record { priority = priority; leaf = leaf } self.old.entries) }
        ensures same { OnErr result (self.new.entries ≡ self.old.entries) }
        ensures kept { self.old.spare ≤ self.new.spare + 1 }
    {
        self.reserve(1)?;
        self.put(priority, leaf);
        Ok(())
    }

    /// The first entry. `None` comes where there is none.
    pub fn peek(&self) -> Option<Entry>
        ensures first { result ≡ slice_get self.now.entries 0 }
        ensures ordered { AreInOrder self.now.entries }
    {
        let Reverse(first) = self.heap.peek()?;
        Some(*first)
    }

    /// Takes out the first entry.
    fn pop_first(&mut self) -> Option<Entry>
        ensures entries { MatchOption result ((self.old.entries ≡ []) × (self.new.entries ≡ [])) (λ first. self.old.entries ≡ first ∷ self.new.entries) }
        ensures spare { self.new.spare ≡ self.old.spare }
    {
        let Reverse(first) = self.heap.pop()?;
        Some(first)
    }

    /// Takes out the first entry of a live leaf, and drops those of dead leaves before it. `None`
    /// comes where no entry is of a live leaf.
    pub fn pop_alive<R, N>(&mut self, tree: &Tree<R, N>) -> Option<Entry>
        ensures popped { PopsAlive (IsLive tree.now) self.old.entries result self.new.entries }
        ensures spare { self.new.spare ≡ self.old.spare }
    {
        while let Some(entry) = self.pop_first() {
            if tree.alive(entry.leaf) {
                return Some(entry);
            }
        }
        None
    }
}
