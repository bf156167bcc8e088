ghost use Rattle.std.specs.FinMap.{get, insert, remove};
ghost use Rattle.std.specs.Bool.{OnTrue};
ghost use Rattle.std.specs.Prelude.{◌≡◌, ◌^◌, ◌<◌, ◌≤◌, ◌<ℤ◌, ◌≤ℤ◌, ℕ, ℤ, false, pos, IsSome, IsTrue, OnErr, OnOk, Some, replicate};
ghost use Rattle.cyp_machine.specs.Bounds.{StoreBounded};
ghost use Rattle.cyp_machine.specs.Faults.{is_whole};
ghost use Rattle.cyp_machine.specs.Steps.{IsFree, addresses, has_all, insert_all, remove_all};

use crate::store::Store;
use cyp_term::NoMemory;
use std::marker::Model;

/// No free base is looked for from here on.
const END: i64 = 1 << 60;

/// The heap of a run, and a base below which no block of one cell or more can begin.
#[derive(Drop)]
pub(crate) struct Heap {
    store: Store,
    low: i64,
}

impl Model for Heap {
    ghost use Rattle.cyp_heap.specs.Stores.{Store as Held};
    ghost use Rattle.cyp_machine.specs.HeapCode.{heap_code};
    ghost use Rattle.cyp_machine.specs.LowBases.{IsLow};

    ghost Value = { Held };

    ghost coded = { heap_code };

    ghost view = { λ a. a.store };

    ghost invariant = { λ a. IsLow a.store a.low };
}

#[tactic(auto, using(crate::proofs::LowBases::free_of_place, crate::proofs::LowBases::passed))]
/// The least base from this one on where a block of this size may begin.
fn least_free(store: &Store, from: i64, size: u8) -> i64
    requires positive { pos 0 <ℤ from }
    requires small { from ≤ℤ pos (2 ^ 60) }
    requires bounded { StoreBounded (2 ^ 59) store.now }
    ensures free { IsFree store.now result size }
    ensures least { (a : ℤ) → from ≤ℤ a → IsFree store.now a size → result ≤ℤ a }
    ensures from { from ≤ℤ result }
    ensures small { result ≤ℤ pos (2 ^ 60) }
{
    for base in from..END {
        if store.has_place(base, size) {
            return base;
        }
    }
    END
}

/// The low base behind a block at this base is given back.
fn lower(low: i64, base: i64) -> i64
    requires { pos 0 <ℤ low }
    ensures positive { pos 0 <ℤ result }
    ensures low { result ≤ℤ low }
    ensures base { (a : ℤ) → pos 0 <ℤ a → a <ℤ result → a <ℤ base }
{
    if low <= base {
        return low;
    }
    if base < 1 {
        return 1;
    }
    base
}

impl Heap {
    /// The heap of the store.
    pub(crate) fn new(store: Store) -> Heap
        ensures { result ≡ store }
    {
        Heap { store, low: 1 }
    }

    /// The store of the heap.
    pub(crate) fn into_store(self) -> Store
        ensures { result ≡ self }
    {
        let Heap { store, low: _ } = self;
        store
    }

    /// The content of the cell at the address.
    pub(crate) fn read(&self, address: i64) -> Option<i64>
        ensures { result ≡ get self.now.cells address }
    {
        self.store.cell(address)
    }

    /// Changes the content of a cell that is there.
    pub(crate) fn write(&mut self, address: i64, content: i64) -> Result<(), NoMemory>
        requires { IsSome (get self.old.cells address) }
        ensures ok { OnOk result (self.new ≡ record { cells = insert self.old.cells address content; blocks = self.old.blocks }) }
        ensures err { OnErr result (self.new ≡ self.old) }
    {
        self.store.put_cell(address, content)?;
        Ok(())
    }

    /// The least base where a block of this size may begin.
    pub(crate) fn free_base(&mut self, size: u8) -> i64
        requires size { 0 < size }
        requires bounded { StoreBounded (2 ^ 59) self.old }
        ensures same { self.new ≡ self.old }
        ensures free { IsFree self.old result size }
        ensures least { (a : ℤ) → IsFree self.old a size → result ≤ℤ a }
        ensures small { result ≤ℤ pos (2 ^ 60) }
    {
        self.low = least_free(&self.store, self.low, 1);
        least_free(&self.store, self.low, size)
    }

    /// Makes a block at the free base, with zeros in its cells.
    pub(crate) fn take(&mut self, base: i64, size: u8) -> Result<(), NoMemory>
        requires free { IsFree self.old base size }
        requires small { base ≤ℤ pos (2 ^ 60) }
        ensures ok { OnOk result (self.new ≡ record { cells = insert_all self.old.cells base (replicate size (pos 0)); blocks = insert self.old.blocks base size }) }
        ensures err { OnErr result (self.new ≡ self.old) }
    {
        self.store.add_cells(base, size)?;
        if let Err(error) = self.store.put_block(base, size) {
            self.store.remove_cells(base, size);
            return Err(error);
        }
        Ok(())
    }

    /// Takes the block at the base and its cells away, and answers whether it was wholly there.
    pub(crate) fn give(&mut self, base: i64) -> bool
        requires { base ≤ℤ pos (2 ^ 61) }
        ensures yes { OnTrue result ((size : ℕ) × (get self.old.blocks base ≡ Some size) × IsTrue (has_all self.old.cells (addresses base size)) × (self.new ≡ record { cells = remove_all self.old.cells (addresses base size); blocks = remove self.old.blocks base })) }
        ensures no { result ≡ false → (is_whole self.old base (get self.old.blocks base) ≡ false) × (self.new ≡ self.old) }
    {
        let Some(size) = self.store.block(base) else {
            return false;
        };
        if !self.store.has_cells(base, size) {
            return false;
        }
        self.store.remove_cells(base, size);
        self.store.drop_block(base);
        self.low = lower(self.low, base);
        true
    }
}
