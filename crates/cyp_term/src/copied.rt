ghost use Rattle.std.specs.Prelude.{◌≡◌, IfOk, true};

use crate::fail::NoMemory;
use crate::list::List;
use std::alloc::Global;

/// A copy is the same value.
pub trait Copied {
    fn copy(&self, alloc: Global) -> Result<Self, NoMemory>
        ensures { IfOk result (λ same. same ≡ self.now) };
}

/// Values that are equal by `==` are the same to contracts.
pub trait Exact: Eq {
    ghost exact: { (x y : Self) → Self.eq x y ≡ true → x ≡ y };
}

impl Copied for u8 {
    fn copy(&self, _alloc: Global) -> Result<u8, NoMemory> {
        Ok(*self)
    }
}

impl Exact for u8 {
    ghost use Rattle.std.proofs.Common.{rules};

    ghost exact = { Prim.search rules };
}

impl<T: Copied + Drop> Copied for List<T> {
    fn copy(&self, alloc: Global) -> Result<List<T>, NoMemory> {
        let mut items = Vec::new(alloc);
        for item in self.as_slice() {
            items.push(item.copy(alloc)?)?;
        }
        Ok(List::from_vec(items))
    }
}

impl<T: Exact> Exact for List<T> {
    ghost use Rattle.cyp_term.specs.Exactly.{exact_lists};

    ghost exact = { exact_lists T.exact };
}
