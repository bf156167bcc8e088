ghost use Rattle.std.specs.Prelude.{[], if◌then◌else◌, length, ◌<◌, ◌≡◌, ◌≤◌, ◌∷◌, ◌++◌, ◌↔◌, IfOk, IsTrue};
ghost use Rattle.std.specs.List.{zip};
ghost use Rattle.cyp_term.specs.Meaning.{Satisfiable};
ghost use Rattle.cyp_pure.specs.Dealing.{CanDeal, IsDealt, ties};
ghost use Rattle.cyp_pure.specs.Questions.{IsAsked};

use cyp_diff::solve_with;
use cyp_sets::regions_with;
use cyp_term::{Copied, List, Lit, NoMemory, Term};
use std::alloc::Global;

/// Literals of integers and literals of sets, in two parts each, and the element terms of those of sets in order of first
/// occurrence.
#[derive(Clone, Copy)]
pub(crate) struct Question<'a> {
    pub ints: &'a [Lit],
    pub more: &'a [Lit],
    pub sets: &'a [Lit],
    pub more_sets: &'a [Lit],
    pub terms: &'a [Term],
}

/// The classes of a question's first terms: equal numbers, each below `count`, say that the values are equal. The facts are
/// the question's further literals of integers, and what the classes say.
#[derive(Drop)]
pub(crate) struct Dealing {
    pub classes: List<u8>,
    pub count: u8,
    pub facts: List<Lit>,
}

fn tie(a: Term, b: Term, same: bool) -> Lit
    ensures { result ≡ (if same then Lit.Eq a b else Lit.Ne a b) }
{
    if same { Lit::Eq(a, b) } else { Lit::Ne(a, b) }
}

/// The facts, and what the class of one more term says.
fn tied(
    alloc: Global,
    dealing: &Dealing,
    terms: &[Term],
    term: Term,
    class: u8,
) -> Result<List<Lit>, NoMemory>
    requires { length dealing.now.classes ≤ length terms.now }
    ensures { IfOk result (λ ls. ls ≡ dealing.now.facts ++ ties term class (zip terms.now dealing.now.classes)) }
{
    let mut facts = dealing.facts.copy(alloc)?.into_vec();
    let classes = dealing.classes.as_slice();
    for k in 0..classes.len() {
        facts.push(tie(terms[k], term, classes[k] == class))?;
    }
    Ok(List::from_vec(facts))
}

/// The dealing with a class for the next term, an earlier one or a new one.
fn next_dealing(
    alloc: Global,
    question: &Question<'_>,
    dealing: &Dealing,
    class: u8,
) -> Result<Dealing, NoMemory>
    requires asked { IsAsked question.now }
    requires dealt { IsDealt question.now dealing.now }
    requires more { length dealing.now.classes < length question.now.terms.now }
    requires class { class ≤ dealing.now.count }
    ensures { IfOk result (λ next. (next.classes ≡ dealing.now.classes ++ class ∷ []) × IsDealt question.now next) }
{
    let term = question.terms[dealing.classes.len()];
    let facts = tied(alloc, dealing, question.terms, term, class)?;
    let mut classes = dealing.classes.copy(alloc)?;
    classes.push(alloc, class)?;
    let count = if class < dealing.count {
        dealing.count
    } else {
        class + 1
    };
    Ok(Dealing {
        classes,
        count,
        facts,
    })
}

/// Whether integers and sets make all true where the next term is of the class.
#[cycle(deal)]
fn deal_next(
    alloc: Global,
    question: &Question<'_>,
    dealing: &Dealing,
    class: u8,
) -> Result<bool, NoMemory>
    requires asked { IsAsked question.now }
    requires dealt { IsDealt question.now dealing.now }
    requires more { length dealing.now.classes < length question.now.terms.now }
    requires class { class ≤ dealing.now.count }
    ensures { IfOk result (λ r. IsTrue r ↔ CanDeal question.now (dealing.now.classes ++ class ∷ [])) }
{
    let next = next_dealing(alloc, question, dealing, class)?;
    match solve_with(alloc, question.ints, next.facts.as_slice())? {
        Some(_) => deal(alloc, question, &next),
        None => Ok(false),
    }
}

/// Whether integers and sets make all true where the first terms are of their classes. The other terms are dealt one after
/// another, each to a new class first, and no further than integers exist.
#[cycle(deal)]
pub(crate) fn deal(
    alloc: Global,
    question: &Question<'_>,
    dealing: &Dealing,
) -> Result<bool, NoMemory>
    requires asked { IsAsked question.now }
    requires dealt { IsDealt question.now dealing.now }
    requires possible { Satisfiable (question.now.ints.now ++ dealing.now.facts) }
    ensures { IfOk result (λ r. IsTrue r ↔ CanDeal question.now dealing.now.classes) }
{
    if dealing.classes.len() == question.terms.len() {
        return regions_with(
            alloc,
            question.sets,
            question.more_sets,
            dealing.classes.as_slice(),
        );
    }
    for class in (0..dealing.count + 1).rev() {
        if deal_next(alloc, question, dealing, class)? {
            return Ok(true);
        }
    }
    Ok(false)
}
