ghost use Rattle.std.specs.Prelude.{[], ◌≡◌, map};
ghost use Rattle.std.specs.List.{list_any};
ghost use Rattle.std.specs.Str.{bytes_eq};
ghost use Rattle.cyp_lex.specs.declared.ident.Ident.{Ident as TheIdent};
ghost use Rattle.cyp_names.specs.LeastFaults.{repeat_fault};
ghost use Rattle.cyp_names.specs.NameFaults.{repeats};
ghost use Rattle.cyp_names.specs.FaultOrder.{least_fault};

use crate::least::{fault, lesser};
use crate::predicates::is_same_name;
use cyp_lex::{Fault, FaultKind, Ident};
use cyp_text::{ParamTree, PredTree};

/// What declares a name.
pub(crate) trait Declares {
    ghost declared: { Self → TheIdent };

    /// The name that is declared.
    fn name(&self) -> &Ident
        ensures { result.now ≡ declared self.now };
}

impl Declares for PredTree {
    ghost declared = { λ q. q.name };

    fn name(&self) -> &Ident {
        &self.name
    }
}

impl Declares for ParamTree {
    ghost declared = { λ p. p.name };

    fn name(&self) -> &Ident {
        &self.name
    }
}

/// Whether one of these declares the name.
pub(crate) fn is_declared<T: Declares>(name: &Ident, items: &[T]) -> bool
    ensures { result ≡ list_any (λ i. bytes_eq i.text name.now.text) (map T.declared items.now) }
{
    for item in items {
        if is_same_name(item.name(), name) {
            return true;
        }
    }
    false
}

/// The fault of a name that is declared earlier.
fn repeat<T: Declares>(item: &T, earlier: &[T]) -> Option<Fault>
    ensures { result ≡ least_fault (repeat_fault (map T.declared earlier.now) (T.declared item.now)) }
{
    let name = item.name();
    if is_declared(name, earlier) {
        fault(FaultKind::DuplicateName, name.place)
    } else {
        None
    }
}

/// The least fault of a name that is declared twice.
pub(crate) fn first_repeat<T: Declares>(items: &[T]) -> Option<Fault>
    ensures { result ≡ least_fault (repeats [] (map T.declared items.now)) }
{
    let mut found = None;
    for place in 0..items.len() {
        found = lesser(found, repeat(&items[place], &items[..place]));
    }
    found
}
