ghost use Rattle.std.specs.Prelude.{◌≡◌, None, Some, MatchOption, length, map};
ghost use Rattle.std.specs.Str.{bytes_eq};
ghost use Rattle.cyp_names.specs.Uses.{param_sort, pred_named, pred_place, sort_of, sorts_of};

use cyp_lex::Ident;
use cyp_term::Sort;
use cyp_text::{ParamTree, PredTree, SortTree};

/// Whether two names are written alike.
pub(crate) fn is_same_name(one: &Ident, other: &Ident) -> bool
    ensures { result ≡ bytes_eq one.now.text other.now.text }
{
    one.text.as_slice() == other.text.as_slice()
}

/// The first predicate of a name.
pub fn pred_named<'a>(name: &Ident, preds: &'a [PredTree]) -> Option<&'a PredTree>
    ensures { MatchOption result (pred_named name.now.text preds.now ≡ None) (λ pred. pred_named name.now.text preds.now ≡ Some pred.now) }
{
    for pred in preds {
        if is_same_name(&pred.name, name) {
            return Some(pred);
        }
    }
    None
}

/// The place in the list of the first predicate of a name, or the list's length where there is
/// none.
pub fn pred_place(name: &Ident, preds: &[PredTree]) -> usize
    ensures { result ≡ pred_place name.now.text preds.now }
{
    for place in 0..preds.len() {
        if is_same_name(&preds[place].name, name) {
            return place;
        }
    }
    preds.len()
}

/// The sort that a word names.
pub(crate) fn sort_of(sort: SortTree) -> Sort
    ensures { result ≡ sort_of sort }
{
    match sort {
        SortTree::LocSort | SortTree::IntSort => Sort::Int,
        SortTree::SetSort => Sort::Set,
    }
}

/// The sort that a parameter is declared with.
pub fn param_sort(param: &ParamTree) -> Sort
    ensures { result ≡ param_sort param.now }
{
    sort_of(param.sort)
}

/// The parameters of an instance's predicate, where it is there and has as many parameters as the
/// instance has arguments.
pub fn params_of<'a>(name: &Ident, count: usize, preds: &'a [PredTree]) -> &'a [ParamTree]
    ensures { map param_sort result.now ≡ sorts_of count (pred_named name.now.text preds.now) }
{
    match pred_named(name, preds) {
        Some(pred) if pred.params.len() == count => pred.params.as_slice(),
        _ => &[],
    }
}
