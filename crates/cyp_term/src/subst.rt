ghost use Rattle.std.specs.Prelude.{option_map, ◌≡◌};
ghost use Rattle.cyp_term.specs.Terms.{int_image, set_image};

use crate::copied::Copied;
use crate::fail::NoMemory;
use crate::list::List;
use crate::lit::SetTerm;
use crate::term::{Term, Var};
use std::alloc::Global;

/// The image of a variable of sort `Int` or `Card`.
#[derive(Clone, Copy, Debug, PartialEq, Eq, Hash)]
pub struct IntBind {
    pub var: Var,
    pub to: Term,
}

/// The image of a variable of sort `Set`.
#[derive(Debug, Drop, PartialEq, Eq, Hash)]
pub struct SetBind {
    pub var: Var,
    pub to: SetTerm,
}

/// A substitution. Where a variable stands twice, its first entry counts.
#[derive(Debug, Drop, PartialEq, Eq, Hash)]
pub struct Subst {
    pub ints: List<IntBind>,
    pub sets: List<SetBind>,
}

impl Subst {
    /// The image of a variable of sort `Int` or `Card` by its first entry, or `None` where it has
    /// none.
    pub fn image(&self, var: Var) -> Option<Term>
        ensures { result ≡ int_image self.now.ints var }
    {
        for bind in self.ints.as_slice() {
            if bind.var == var {
                return Some(bind.to);
            }
        }
        None
    }

    /// The image of a set variable by its first entry, or `None` where it has none.
    pub fn set_image(&self, var: Var) -> Option<&SetTerm>
        ensures { option_map (λ u. u.now) result ≡ set_image self.now.sets var }
    {
        for bind in self.sets.as_slice() {
            if bind.var == var {
                return Some(&bind.to);
            }
        }
        None
    }
}

impl Copied for IntBind {
    fn copy(&self, _alloc: Global) -> Result<IntBind, NoMemory> {
        Ok(*self)
    }
}

impl Copied for SetBind {
    fn copy(&self, alloc: Global) -> Result<SetBind, NoMemory> {
        Ok(SetBind {
            var: self.var,
            to: self.to.copy(alloc)?,
        })
    }
}

impl Copied for Subst {
    fn copy(&self, alloc: Global) -> Result<Subst, NoMemory> {
        Ok(Subst {
            ints: self.ints.copy(alloc)?,
            sets: self.sets.copy(alloc)?,
        })
    }
}
