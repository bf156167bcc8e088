ghost use Rattle.std.specs.Prelude.{◌≡◌, ◌-◌, ◌≤ℤ◌, ◌+ℤ◌, pos, IsTrue, OnOk, OnErr, replicate};
ghost use Rattle.std.specs.FinMap.{get, insert, remove};
ghost use Rattle.cyp_machine.specs.Steps.{addresses, has_all, has_none, insert_all, remove_all};

use cyp_term::NoMemory;
use std::collections::BTreeMap;
use std::marker::Model;

/// The heap of a run: the cells with their contents by their addresses, and the sizes of the blocks
/// by their bases.
#[derive(Debug, Drop)]
pub struct Store {
    pub cells: BTreeMap<i64, i64>,
    pub blocks: BTreeMap<i64, u8>,
}

impl Model for Store {
    ghost use Rattle.cyp_heap.specs.Stores.{Store as Heap};
    ghost use Rattle.cyp_machine.specs.HeapCode.{heap_code};
    ghost use Rattle.std.specs.FinMap.{from_entries};

    ghost Value = { Heap };

    ghost coded = { heap_code };

    ghost view = { λ a. record { cells = from_entries a.cells.entries; blocks = from_entries a.blocks.entries } };
}

impl Store {
    /// The content of the cell at the address.
    pub fn cell(&self, address: i64) -> Option<i64>
        ensures { result ≡ get self.now.cells address }
    {
        self.cells.get(&address).copied()
    }

    /// The size of the block at the base.
    pub fn block(&self, base: i64) -> Option<u8>
        ensures { result ≡ get self.now.blocks base }
    {
        self.blocks.get(&base).copied()
    }

    /// Gives the cell this content, and makes it where there is none.
    pub(crate) fn put_cell(&mut self, address: i64, content: i64) -> Result<(), NoMemory>
        ensures ok { OnOk result (self.new ≡ record { cells = insert self.old.cells address content; blocks = self.old.blocks }) }
        ensures err { OnErr result (self.new ≡ self.old) }
    {
        self.cells.insert(address, content)?;
        Ok(())
    }

    /// Takes the cell away.
    pub(crate) fn drop_cell(&mut self, address: i64)
        ensures { self.new ≡ record { cells = remove self.old.cells address; blocks = self.old.blocks } }
    {
        self.cells.remove(&address);
    }

    /// Makes a block of this size.
    pub(crate) fn put_block(&mut self, base: i64, size: u8) -> Result<(), NoMemory>
        ensures ok { OnOk result (self.new ≡ record { cells = self.old.cells; blocks = insert self.old.blocks base size }) }
        ensures err { OnErr result (self.new ≡ self.old) }
    {
        self.blocks.insert(base, size)?;
        Ok(())
    }

    /// Takes the block away.
    pub(crate) fn drop_block(&mut self, base: i64)
        ensures { self.new ≡ record { cells = self.old.cells; blocks = remove self.old.blocks base } }
    {
        self.blocks.remove(&base);
    }
}
