ghost use Rattle.std.specs.Prelude.{◌≡◌, ◌+ℤ◌, ◌≤ℤ◌, ◌^◌, pos, IsTrue, OnOk, OnErr, replicate};
ghost use Rattle.cyp_machine.specs.LowBases.{has_place};
ghost use Rattle.cyp_machine.specs.Steps.{addresses, has_all, has_none, insert_all, remove_all};

use crate::store::Store;
use cyp_term::NoMemory;

impl Store {
    /// Whether there are this many cells from the base on.
    pub(crate) fn has_cells(&self, base: i64, count: u8) -> bool
        requires { (base +ℤ pos count) ≤ℤ pos (2 ^ 62) }
        ensures { result ≡ has_all self.now.cells (addresses base count) }
    {
        if count == 0 {
            return true;
        }
        self.cell(base).is_some() && self.has_cells(base + 1, count - 1)
    }

    /// Whether there is no cell among this many addresses from the base on.
    pub(crate) fn has_room(&self, base: i64, count: u8) -> bool
        requires { (base +ℤ pos count) ≤ℤ pos (2 ^ 62) }
        ensures { result ≡ has_none self.now.cells (addresses base count) }
    {
        if count == 0 {
            return true;
        }
        self.cell(base).is_none() && self.has_room(base + 1, count - 1)
    }

    /// Whether neither the block nor the cells of a block of this size are there yet.
    pub(crate) fn has_place(&self, base: i64, size: u8) -> bool
        requires { (base +ℤ pos size) ≤ℤ pos (2 ^ 62) }
        ensures { result ≡ has_place self.now base size }
    {
        self.block(base).is_none() && self.has_room(base, size)
    }

    /// Takes this many cells away from the base on.
    pub(crate) fn remove_cells(&mut self, base: i64, count: u8)
        requires { (base +ℤ pos count) ≤ℤ pos (2 ^ 62) }
        ensures { self.new ≡ record { cells = remove_all self.old.cells (addresses base count); blocks = self.old.blocks } }
    {
        if count == 0 {
            return;
        }
        self.remove_cells(base + 1, count - 1);
        self.drop_cell(base);
    }

    /// Makes this many cells with content 0 from the base on, where there are none.
    pub(crate) fn add_cells(&mut self, base: i64, count: u8) -> Result<(), NoMemory>
        requires fits { (base +ℤ pos count) ≤ℤ pos (2 ^ 62) }
        requires room { IsTrue (has_none self.old.cells (addresses base count)) }
        ensures ok { OnOk result (self.new ≡ record { cells = insert_all self.old.cells base (replicate count (pos 0)); blocks = self.old.blocks }) }
        ensures err { OnErr result (self.new ≡ self.old) }
    {
        if count == 0 {
            return Ok(());
        }
        self.add_cells(base + 1, count - 1)?;
        if let Err(error) = self.put_cell(base, 0) {
            self.remove_cells(base + 1, count - 1);
            return Err(error);
        }
        Ok(())
    }
}
