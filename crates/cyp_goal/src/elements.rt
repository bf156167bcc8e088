//! The different element terms of a goal, counted up to the limit.

ghost use Rattle.std.specs.Prelude.{◌≡◌, IfOk, List, OnOk, length, nat_le};
ghost use Rattle.std.specs.List.{flat_map};
ghost use Rattle.cyp_goal.specs.Counting.{with_all_few, with_few};
ghost use Rattle.cyp_heap.specs.Limits.{arg_elements, chunk_elements, goal_elements};
ghost use Rattle.cyp_term.specs.Terms.{lit_elements, term_eq, without_repeats};
ghost use Rattle.cyp_term.specs.declared.term.Term.{Term as TheTerm};

use crate::once::add_term;
use cyp_heap::{Arg, Chunk, Goal};
use cyp_term::{Lit, NoMemory, Term};
use std::alloc::Global;

/// The limit of different element terms.
const MOST: usize = 6;

/// Adds the term at the end, unless it is there or the limit is passed.
fn add_few(found: &mut Vec<Term>, term: Term) -> Result<(), NoMemory>
    ensures { OnOk result (found.new.items ≡ with_few found.old.items term) }
{
    if found.len() <= MOST {
        add_term(found, term)?;
    }
    Ok(())
}

fn add_terms(found: &mut Vec<Term>, terms: &[Term]) -> Result<(), NoMemory>
    ensures { OnOk result (found.new.items ≡ with_all_few found.old.items terms.now) }
{
    for term in terms {
        add_few(found, *term)?;
    }
    Ok(())
}

/// What has element terms.
trait HasElements {
    ghost elements: { Self → List TheTerm };

    /// Adds the element terms that aren't there, until the limit is passed.
    fn add_elements(&self, found: &mut Vec<Term>) -> Result<(), NoMemory>
        ensures { OnOk result (found.new.items ≡ with_all_few found.old.items (elements self.now)) };
}

fn add_all_elements<T: HasElements>(found: &mut Vec<Term>, items: &[T]) -> Result<(), NoMemory>
    ensures { OnOk result (found.new.items ≡ with_all_few found.old.items (flat_map T.elements items.now)) }
{
    for item in items {
        item.add_elements(found)?;
    }
    Ok(())
}

impl HasElements for Lit {
    ghost elements = { lit_elements };

    fn add_elements(&self, found: &mut Vec<Term>) -> Result<(), NoMemory> {
        match self {
            Lit::Eq(_, _) | Lit::Ne(_, _) | Lit::Le(_, _) | Lit::Lt(_, _) => Ok(()),
            Lit::Member(a, b) | Lit::NotMember(a, b) => {
                add_few(found, *a)?;
                add_terms(found, b.elems())
            }
            Lit::Same(a, b) | Lit::NotSame(a, b) | Lit::Sub(a, b) | Lit::NotSub(a, b) => {
                add_terms(found, a.elems())?;
                add_terms(found, b.elems())?;
                Ok(())
            }
        }
    }
}

impl HasElements for Arg {
    ghost elements = { arg_elements };

    fn add_elements(&self, found: &mut Vec<Term>) -> Result<(), NoMemory> {
        match self {
            Arg::Int(_) => Ok(()),
            Arg::Set(set) => add_terms(found, set.elems()),
        }
    }
}

impl HasElements for Chunk {
    ghost elements = { chunk_elements };

    fn add_elements(&self, found: &mut Vec<Term>) -> Result<(), NoMemory> {
        match self {
            Chunk::Inst(inst) => add_all_elements(found, inst.args.as_slice()),
            Chunk::Block(_) | Chunk::Cell(_) => Ok(()),
        }
    }
}

/// Whether a goal has no more different element terms than a node may have.
pub(crate) fn are_elements_few(alloc: Global, goal: &Goal) -> Result<bool, NoMemory>
    ensures { IfOk result (λ b. b ≡ nat_le (length (without_repeats term_eq (goal_elements goal.now))) 6) }
{
    let mut found = Vec::new(alloc);
    add_all_elements(&mut found, goal.pure_pre.as_slice())?;
    add_all_elements(&mut found, goal.pre.chunks())?;
    add_all_elements(&mut found, goal.pure_post.as_slice())?;
    add_all_elements(&mut found, goal.post.chunks())?;
    Ok(found.as_slice().len() <= MOST)
}
