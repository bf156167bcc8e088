//! Guards that a program can test.

ghost use Rattle.std.specs.Prelude.{◌≡◌};
ghost use Rattle.std.specs.List.{list_all};
ghost use Rattle.cyp_pred.specs.declared.unfolded.Unfolded.{Unfolded as Entry};
ghost use Rattle.cyp_step.specs.Unfolding.{is_testable};

use crate::existentials::is_program_expr;
use cyp_heap::Goal;
use cyp_pred::Unfolded;
use cyp_term::Lit;

/// Whether both sides of an integer literal are program expressions.
fn is_testable(goal: &Goal, lit: &Lit) -> bool
    ensures { result ≡ is_testable goal.now lit.now }
{
    match lit {
        Lit::Eq(a, b) | Lit::Ne(a, b) | Lit::Le(a, b) | Lit::Lt(a, b) => {
            is_program_expr(goal, *a) && is_program_expr(goal, *b)
        }
        _ => false,
    }
}

/// Whether the guard of each entry can be tested.
pub(crate) fn are_testable(goal: &Goal, entries: &[Unfolded]) -> bool
    ensures { result ≡ list_all (λ (u : Entry). is_testable goal.now u.guard) entries.now }
{
    for entry in entries {
        if !is_testable(goal, &entry.guard) {
            return false;
        }
    }
    true
}
