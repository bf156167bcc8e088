//! The measure of the companion that Open adds.

ghost use Rattle.std.specs.Prelude.{IfOk, IsTrue, OnOk, ◌++◌, ◌≡◌};
ghost use Rattle.std.specs.List.{All};
ghost use Rattle.cyp_heap.specs.Formed.{is_card_var};
ghost use Rattle.cyp_step.specs.UnfoldParts.{HasCard, cards_in};
ghost use Rattle.cyp_step.specs.Unfolding.{card_terms, cards_of, last_tuple};

use cyp_heap::{Chunk, Heap, InstOf, Link};
use cyp_term::{Copied, List, NoMemory, Term, Var};
use std::alloc::Global;

/// The tuple of the last link, or no term.
fn last_tuple(alloc: Global, links: &[Link]) -> Result<List<Term>, NoMemory>
    ensures { IfOk result (λ ts. ts ≡ last_tuple links.now) }
{
    if links.len() == 0 {
        return Ok(List::from_vec(Vec::new(alloc)));
    }
    let tuple = links[links.len() - 1].tuple.copy(alloc)?;
    Ok(tuple)
}

/// Adds the cardinality, where there is one.
fn add_card(alloc: Global, card: Option<Var>, terms: &mut List<Term>) -> Result<(), NoMemory>
    requires { IsTrue (is_card_var card) }
    ensures { OnOk result (terms.new ≡ terms.old ++ card_terms card) }
{
    if let Some(var) = card {
        terms.push(alloc, Term::new(Some(var), 0))?;
    }
    Ok(())
}

fn add_chunk(alloc: Global, chunk: &Chunk, terms: &mut List<Term>) -> Result<(), NoMemory>
    requires { HasCard chunk.now }
    ensures { OnOk result (terms.new ≡ terms.old ++ cards_in chunk.now) }
{
    match chunk {
        Chunk::Inst(inst) => add_card(alloc, inst.card, terms),
        Chunk::Block(_) | Chunk::Cell(_) => Ok(()),
    }
}

/// Adds the cardinalities of the instances.
fn add_cards(alloc: Global, chunks: &[Chunk], terms: &mut List<Term>) -> Result<(), NoMemory>
    requires { All HasCard chunks.now }
    ensures { OnOk result (terms.new ≡ terms.old ++ cards_of chunks.now) }
{
    for chunk in chunks {
        add_chunk(alloc, chunk, terms)?;
    }
    Ok(())
}

/// The last tuple, then the cardinality of the instance, then those of the other instances.
pub(crate) fn measure(
    alloc: Global,
    links: &[Link],
    inst: &InstOf,
    others: &Heap,
) -> Result<List<Term>, NoMemory>
    requires card { IsTrue (is_card_var inst.now.card) }
    requires cards { All HasCard others.now.chunks }
    ensures { IfOk result (λ ts. ts ≡ last_tuple links.now ++ card_terms inst.now.card ++ cards_of others.now.chunks) }
{
    let mut terms = last_tuple(alloc, links)?;
    add_card(alloc, inst.card, &mut terms)?;
    add_cards(alloc, others.chunks(), &mut terms)?;
    Ok(terms)
}
