ghost use Rattle.std.specs.Prelude.{◌≡◌, IfOk, OnOk};
ghost use Rattle.cyp_names.specs.LeastFaults.{noted};
ghost use Rattle.cyp_term.specs.Terms.{sort_eq};
ghost use Rattle.cyp_names.specs.NameFaults.{known_sort, sort_fault, sort_faults};
ghost use Rattle.cyp_names.specs.FaultOrder.{least_fault};

use crate::least::{fault, lesser};
use crate::predicates::is_same_name;
use crate::uses::NamedUse;
use cyp_lex::{Fault, FaultKind, Ident};
use cyp_term::{NoMemory, Sort};

/// Whether two sorts are the same.
pub(crate) fn is_same_sort(one: Sort, other: Sort) -> bool
    ensures { result ≡ sort_eq one other }
{
    one == other
}

/// The sort of the first of these uses of a name.
fn known_sort(uses: &[NamedUse<'_>], name: &Ident) -> Option<Sort>
    ensures { result ≡ known_sort uses.now name.now.text }
{
    for used in uses {
        if is_same_name(used.name(), name) {
            return Some(used.sort());
        }
    }
    None
}

/// The fault of a use of another sort than is known of its name, whose sort is known from now on.
fn judge_use<'a>(
    seen: &mut Vec<NamedUse<'a>>,
    used: &NamedUse<'a>,
) -> Result<Option<Fault>, NoMemory>
    ensures fault { IfOk result (λ f. f ≡ least_fault (sort_fault (known_sort seen.old.items used.now.name.text) used.now)) }
    ensures seen { OnOk result (seen.new.items ≡ noted (known_sort seen.old.items used.now.name.text) seen.old.items used.now) }
{
    match known_sort(seen.as_slice(), used.name()) {
        None => {
            seen.push(used.again())?;
            Ok(None)
        }
        Some(sort) if is_same_sort(sort, used.sort()) => Ok(None),
        Some(_) => Ok(fault(FaultKind::WrongSort, used.name().place)),
    }
}

/// The least fault of a use whose sort isn't that of the name's first use, where those seen already
/// come before the others.
pub(crate) fn sort_fault<'a>(
    seen: Vec<NamedUse<'a>>,
    uses: &[NamedUse<'a>],
) -> Result<Option<Fault>, NoMemory>
    ensures { IfOk result (λ f. f ≡ least_fault (sort_faults seen.entry.items uses.now)) }
{
    let mut seen = seen;
    let mut found = None;
    for used in uses {
        let fault = judge_use(&mut seen, used)?;
        found = lesser(found, fault);
    }
    Ok(found)
}
