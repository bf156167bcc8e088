ghost use Rattle.std.specs.Prelude.{◌≡◌};
ghost use Rattle.cyp_term.specs.Integers.{is_int_lit};
ghost use Rattle.cyp_pure.specs.Sorts.{IsNumberTerm, IsSetTerm, HasSorts};

use cyp_term::{Lit, SetTerm, Term};

fn read_term(term: &Term)
    ensures { IsNumberTerm term.now }
{
    let _base = term.base();
}

fn read_set(set: &SetTerm)
    ensures { IsSetTerm set.now }
{
    let _vars = set.vars();
    for term in set.elems() {
        read_term(term);
    }
}

/// Whether the literal compares integers. Reads the variables too, whose sorts their types keep.
pub(crate) fn compares_ints(lit: &Lit) -> bool
    ensures kind { result ≡ is_int_lit lit.now }
    ensures sorts { HasSorts lit.now }
{
    match lit {
        Lit::Eq(a, b) | Lit::Ne(a, b) | Lit::Le(a, b) | Lit::Lt(a, b) => {
            read_term(a);
            read_term(b);
            true
        }
        Lit::Same(a, b) | Lit::NotSame(a, b) | Lit::Sub(a, b) | Lit::NotSub(a, b) => {
            read_set(a);
            read_set(b);
            false
        }
        Lit::Member(a, b) | Lit::NotMember(a, b) => {
            read_term(a);
            read_set(b);
            false
        }
    }
}
