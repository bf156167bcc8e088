ghost use Rattle.std.specs.Prelude.{◌≡◌, [], ◌∷◌, ◌++◌, ◌+◌, ◌-◌, ◌<◌, ◌≤◌, length, insert, remove, slice_get, OnOk, OnErr, vec_len, vec_capacity};
ghost use Rattle.cyp_term.specs.Room.{Held};

use crate::fail::NoMemory;
use crate::list::List;
use std::alloc::Global;
use std::marker::Model;

/// A `Vec` that contracts see as its items and the room that is reserved for more.
#[derive(Debug, Drop)]
pub struct Roomy<T> {
    items: Vec<T>,
}

impl<T> Model for Roomy<T> {
    ghost use Rattle.std.specs.Prelude.{◌-◌, vec_len, vec_capacity};
    ghost use Rattle.cyp_term.specs.Room.{Held, held_code};

    ghost Value = { Held T };

    ghost coded = { held_code T.code };

    ghost view = { λ it. record { items = it.items.items; spare = vec_capacity it.items - vec_len it.items } };
}

impl<T> Roomy<T> {
    /// The vector's items, with the room that it has.
    pub fn from_vec(items: Vec<T>) -> Roomy<T>
        ensures { result.items ≡ items.items }
    {
        Roomy { items }
    }

    /// The items as a list, whose room contracts no longer see.
    pub fn into_list(self) -> List<T>
        ensures { result ≡ self.items }
    {
        let Roomy { items } = self;
        List::from_vec(items)
    }

    /// The items, borrowed in their order.
    pub fn as_slice(&self) -> &[T]
        ensures { result.now ≡ self.now.items }
    {
        self.items.as_slice()
    }

    /// Makes room for at least so many more items. Room that was there stays.
    pub fn reserve(&mut self, _alloc: Global, more: usize) -> Result<(), NoMemory>
        ensures items { self.new.items ≡ self.old.items }
        ensures ok { OnOk result (more ≤ self.new.spare) }
        ensures kept { self.old.spare ≤ self.new.spare }
    {
        self.items.reserve(more)?;
        Ok(())
    }

    /// Takes an item out and closes up. Room that was there stays.
    pub fn remove(&mut self, place: usize) -> T
        requires { place < length self.old.items }
        ensures item { slice_get self.old.items place ≡ Some result }
        ensures rest { self.new.items ≡ remove self.old.items place }
        ensures kept { self.old.spare ≤ self.new.spare }
    {
        self.items.remove(place)
    }
}

impl<T: Drop> Roomy<T> {
    /// Inserts an item before the one at the place, or at the end. It takes no memory, only room.
    pub fn put(&mut self, place: usize, item: T)
        requires within { place ≤ length self.old.items }
        requires room { 0 < self.old.spare }
        ensures items { self.new.items ≡ insert self.old.items place item }
        ensures spare { self.new.spare + 1 ≡ self.old.spare }
    {
        self.items.insert(place, item).unwrap();
    }

    /// Adds an item at the end. Where memory runs out, the items stay as they were.
    pub fn push(&mut self, alloc: Global, item: T) -> Result<(), NoMemory>
        ensures ok { OnOk result (self.new.items ≡ self.old.items ++ item ∷ []) }
        ensures err { OnErr result (self.new.items ≡ self.old.items) }
    {
        let at = self.items.len();
        self.reserve(alloc, 1)?;
        self.put(at, item);
        Ok(())
    }
}
