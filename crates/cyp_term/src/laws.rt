//! Laws of the definitions on literals, each proved as the contract of a function that does
//! nothing.

ghost use Rattle.std.specs.Prelude.{IsTrue, List, pos, ℕ, ℤ, ◌↔◌};
ghost use Rattle.cyp_term.specs.declared.lit.Lit.{Lit};
ghost use Rattle.cyp_term.specs.declared.term.Term.{Term};
ghost use Rattle.cyp_term.specs.Entailment.{entailed, satisfiable};
ghost use Rattle.cyp_term.specs.Integers.{int_lits, ints_fit};
ghost use Rattle.cyp_term.specs.Meaning.{ApplyLaw, Entails, Satisfiable};
ghost use Rattle.cyp_term.specs.Regions.{HasSets, IsArranged, all_terms, class_by, regions_fit};

/// The test of integer literals passes exactly where some integers make all of them true.
pub fn decides_integers()
    ensures { (ls : List Lit) → IsTrue (ints_fit ls) ↔ Satisfiable (int_lits ls) }
{}

/// The test over regions, at given classes of the element terms, passes exactly where finite sets
/// make the set literals true, whatever values of those classes the terms have. The classes may be
/// a list, one for each element term in order of first occurrence.
pub fn decides_regions()
    ensures at_any_values { (class : Term → ℕ) (ls : List Lit) (val : Term → ℤ) → IsArranged class (all_terms ls) val → IsTrue (regions_fit class ls) ↔ HasSets val ls }
    ensures by_class { (class : Term → ℕ) (ls : List Lit) → IsTrue (regions_fit class ls) ↔ HasSets (λ t. pos (class t)) ls }
    ensures by_list { (classes : List ℕ) (ls : List Lit) → IsTrue (regions_fit (class_by (all_terms ls) classes) ls) ↔ HasSets (λ t. pos (class_by (all_terms ls) classes t)) ls }
{}

/// The test of satisfiability passes exactly where some integers and finite sets make all of the
/// literals true.
pub fn decides_satisfiable()
    ensures { (ls : List Lit) → IsTrue (satisfiable ls) ↔ Satisfiable ls }
{}

/// The test of entailment passes exactly where whatever makes all of the first literals true makes
/// all of the second true.
pub fn decides_entailed()
    ensures { (a b : List Lit) → IsTrue (entailed a b) ↔ Entails a b }
{}

/// A literal after a substitution is true exactly where the literal is true of the values that
/// the substitution gives its variables.
pub fn applied_truth()
    ensures { ApplyLaw }
{}
