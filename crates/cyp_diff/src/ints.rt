ghost use Rattle.std.specs.Prelude.{◌≡◌, ◌↔◌, IsTrue};
ghost use Rattle.cyp_term.specs.Integers.{is_int_lit};
ghost use Rattle.cyp_diff.specs.Solving.{AreInts};

use cyp_term::Lit;

fn is_int(lit: &Lit) -> bool
    ensures { result ≡ is_int_lit lit.now }
{
    match lit {
        Lit::Eq(_, _) | Lit::Ne(_, _) | Lit::Le(_, _) | Lit::Lt(_, _) => true,
        _ => false,
    }
}

/// Whether each literal compares two integers, as `solve` requires.
pub fn are_ints(lits: &[Lit]) -> bool
    ensures { IsTrue result ↔ AreInts lits.now }
{
    lits.iter().all(is_int)
}
