ghost use Rattle.std.specs.Prelude.{◌≡◌, ◌↔◌, IfOk, IsTrue, not};
ghost use Rattle.std.specs.List.{filter};
ghost use Rattle.cyp_goal.specs.Normal.{tidy_node};
ghost use Rattle.cyp_goal.specs.Tidying.{is_plainly_true};
ghost use Rattle.cyp_term.specs.Terms.{lit_eq, set_eq, without_repeats};

use crate::addresses::add_addresses;
use crate::draft::Draft;
use cyp_heap::Goal;
use cyp_term::{Exact, List, Lit, NoMemory, SetTerm, each_once};
use std::alloc::Global;

fn same<T: Exact>(a: &T, b: &T) -> bool
    ensures { IsTrue result ↔ (a.now ≡ b.now) }
{
    a == b
}

fn same_set(a: &SetTerm, b: &SetTerm) -> bool
    ensures { result ≡ set_eq a.now b.now }
{
    same(a, b)
}

fn is_plainly_true(lit: &Lit) -> bool
    ensures { result ≡ is_plainly_true lit.now }
{
    match lit {
        Lit::Eq(a, b) => a.base() == b.base() && a.offset() == b.offset(),
        Lit::Ne(a, b) => a.base() == b.base() && a.offset() != b.offset(),
        Lit::Le(a, b) => a.base() == b.base() && a.offset() <= b.offset(),
        Lit::Lt(a, b) => a.base() == b.base() && a.offset() < b.offset(),
        Lit::Same(a, b) => same_set(a, b),
        _ => false,
    }
}

/// The literals without those that are plainly true.
fn telling(lits: List<Lit>) -> Vec<Lit>
    ensures { result.items ≡ filter (λ l. not (is_plainly_true l)) lits }
{
    let mut lits = lits.into_vec();
    lits.retain(|lit| !is_plainly_true(lit));
    lits
}

/// Each literal once, where it stands first.
fn each_lit_once(alloc: Global, lits: Vec<Lit>) -> Result<List<Lit>, NoMemory>
    ensures { IfOk result (λ ls. ls ≡ without_repeats lit_eq lits.items) }
{
    each_once(alloc, List::from_vec(lits))
}

/// Both pure parts without literals that tell nothing, and that the addresses of the pre are
/// positive.
#[tactic(auto, using(crate::proofs::AddressLits::tidied))]
pub(crate) fn tidy(alloc: Global, draft: Draft) -> Result<Draft, NoMemory>
    ensures { IfOk result (λ d. d ≡ tidy_node draft) }
{
    let Draft { preds, goal, links } = draft;
    let Goal {
        program,
        exist,
        pure_pre,
        pre,
        pure_post,
        post,
    } = goal;
    let mut before = telling(pure_pre);
    add_addresses(alloc, &mut before, pre.chunks())?;
    let pure_pre = each_lit_once(alloc, before)?;
    let pure_post = each_lit_once(alloc, telling(pure_post))?;
    let goal = Goal {
        program,
        exist,
        pure_pre,
        pre,
        pure_post,
        post,
    };
    Ok(Draft { preds, goal, links })
}
