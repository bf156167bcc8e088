ghost use Rattle.std.specs.Prelude.{length, negsuc, pos, ◌-◌, ◌^◌, ◌≡◌, ◌≤ℤ◌, ◌≤◌};
ghost use Rattle.cyp_reading.specs.Readable.{HasSort, IntReadable};
ghost use Rattle.cyp_term.specs.Terms.{plus, var_term};
ghost use Rattle.cyp_term.specs.declared.term.Sort.TheVariants.{Int};
ghost use Rattle.cyp_names.specs.ReadTerms.{read_int, var_named};

use cyp_lex::Ident;
use cyp_names::Scope;
use cyp_term::Term;
use cyp_text::IntTree;

/// The variable of the name plus a number of at most 2^31 in size.
#[tactic(auto, using(crate::proofs::TermsRead::int_base, crate::proofs::TermsRead::sum_is))]
pub(crate) fn sum(scope: &Scope<'_>, name: &Ident, more: i64) -> Term
    requires few { length scope.now ≤ 255 }
    requires sort { HasSort scope.now Int name.now }
    requires least { negsuc (2 ^ 31 - 1) ≤ℤ more }
    requires most { more ≤ℤ pos (2 ^ 31) }
    ensures { result ≡ plus (var_term (var_named scope.now name.now.text)) more }
{
    Term::new(Some(scope.var_named(&name.text)), more)
}

/// The term that is the name's variable alone.
#[tactic(auto, using(crate::proofs::TermsRead::int_base))]
pub(crate) fn variable(scope: &Scope<'_>, name: &Ident) -> Term
    requires few { length scope.now ≤ 255 }
    requires sort { HasSort scope.now Int name.now }
    ensures { result ≡ var_term (var_named scope.now name.now.text) }
{
    Term::new(Some(scope.var_named(&name.text)), 0)
}

/// The term that the tree says, where names are the scope's variables.
pub fn read_int(scope: &Scope<'_>, tree: &IntTree) -> Term
    requires few { length scope.now ≤ 255 }
    requires readable { IntReadable scope.now tree.now }
    ensures { result ≡ read_int scope.now tree.now }
{
    match tree {
        IntTree::Num(_, number) => Term::new(None, *number as i64),
        IntTree::MinusNum(_, number) => Term::new(None, -(*number as i64)),
        IntTree::Named(name) => variable(scope, name),
        IntTree::NamePlus(name, number) => sum(scope, name, *number as i64),
        IntTree::NameMinus(name, number) => sum(scope, name, -(*number as i64)),
        IntTree::NumPlus(_, number, name) => sum(scope, name, *number as i64),
    }
}
