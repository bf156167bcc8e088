ghost use Rattle.std.specs.Prelude.{◌≡◌, ◌==◌, length};
ghost use Rattle.std.specs.List.{flat_map, list_any};
ghost use Rattle.cyp_term.specs.Terms.{var_in};

use crate::occurs::Occurs;
use crate::var_table::VarTable;
use cyp_term::{Lit, SetTerm, Term, Var};

/// What may have one of the variables of a table.
pub(crate) trait Touches: Occurs {
    /// Whether one of the variables is in the table.
    fn meets(&self, table: &VarTable) -> bool
        ensures { result ≡ list_any (λ v. var_in v table.now) (Self.occurring self.now) };

    /// Whether no variable occurs.
    fn is_closed(&self) -> bool
        ensures { result ≡ (length (Self.occurring self.now) == 0) };
}

fn some_meets<T: Touches>(items: &[T], table: &VarTable) -> bool
    ensures { result ≡ list_any (λ v. var_in v table.now) (flat_map T.occurring items.now) }
{
    for item in items {
        if item.meets(table) {
            return true;
        }
    }
    false
}

fn are_closed<T: Touches>(items: &[T]) -> bool
    ensures { result ≡ (length (flat_map T.occurring items.now) == 0) }
{
    for item in items {
        if !item.is_closed() {
            return false;
        }
    }
    true
}

impl Touches for Var {
    fn meets(&self, table: &VarTable) -> bool {
        table.has(*self)
    }

    fn is_closed(&self) -> bool {
        false
    }
}

impl Touches for Term {
    fn meets(&self, table: &VarTable) -> bool {
        match self.base() {
            Some(var) => table.has(var),
            None => false,
        }
    }

    fn is_closed(&self) -> bool {
        self.base().is_none()
    }
}

impl Touches for SetTerm {
    fn meets(&self, table: &VarTable) -> bool {
        some_meets(self.vars(), table) || some_meets(self.elems(), table)
    }

    fn is_closed(&self) -> bool {
        are_closed(self.vars()) && are_closed(self.elems())
    }
}

impl Touches for Lit {
    fn meets(&self, table: &VarTable) -> bool {
        match self {
            Lit::Eq(a, b) | Lit::Ne(a, b) | Lit::Le(a, b) | Lit::Lt(a, b) => {
                a.meets(table) || b.meets(table)
            }
            Lit::Member(a, b) | Lit::NotMember(a, b) => a.meets(table) || b.meets(table),
            Lit::Same(a, b) | Lit::NotSame(a, b) | Lit::Sub(a, b) | Lit::NotSub(a, b) => {
                a.meets(table) || b.meets(table)
            }
        }
    }

    fn is_closed(&self) -> bool {
        match self {
            Lit::Eq(a, b) | Lit::Ne(a, b) | Lit::Le(a, b) | Lit::Lt(a, b) => {
                a.is_closed() && b.is_closed()
            }
            Lit::Member(a, b) | Lit::NotMember(a, b) => a.is_closed() && b.is_closed(),
            Lit::Same(a, b) | Lit::NotSame(a, b) | Lit::Sub(a, b) | Lit::NotSub(a, b) => {
                a.is_closed() && b.is_closed()
            }
        }
    }
}
