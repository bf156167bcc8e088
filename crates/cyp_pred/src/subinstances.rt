//! The instances of an unfolded clause: their tags and cardinalities.

ghost use Rattle.std.specs.Prelude.{IfOk, IsTrue, OnOk, Some, [], length, ◌+◌, ◌++◌, ◌<◌, ◌∷◌, ◌≡◌, ◌≤◌};
ghost use Rattle.cyp_heap.specs.Chunks.{insts};
ghost use Rattle.cyp_pred.specs.Parts.{first_number, with_tag};
ghost use Rattle.cyp_pred.specs.Unfold.{below_card, card_var, cards_used, count_from, new_card, with_tags};
ghost use Rattle.cyp_pred.specs.Unfoldable.{card_fits};
ghost use Rattle.cyp_term.specs.Terms.{sort_eq, var_term};
ghost use Rattle.cyp_term.specs.declared.lit.Lit.TheVariants.{Lt};
ghost use Rattle.cyp_term.specs.declared.term.Sort.TheVariants.{Card};

use cyp_heap::{Chunk, InstOf};
use cyp_term::{List, Lit, NoMemory, Sort, Term, Var};
use std::alloc::Global;

fn card_var(number: u8) -> Var
    ensures { result ≡ card_var number }
{
    let sort = Sort::Card;
    Var { sort, number }
}

/// A new cardinality, where the unfolded instance has one.
fn new_card(card: Option<Var>, number: u8) -> Option<Var>
    ensures { result ≡ new_card card number }
{
    match card {
        Some(_) => Some(card_var(number)),
        None => None,
    }
}

/// The chunk, which gets the tag and a cardinality if it is an instance.
fn with_tag(card: Option<Var>, tag: u8, number: u8, chunk: Chunk) -> Chunk
    ensures { result ≡ with_tag card tag number chunk }
{
    match chunk {
        Chunk::Inst(inst) => {
            let InstOf { pred, args, .. } = inst;
            let card = new_card(card, number);
            Chunk::Inst(InstOf {
                pred,
                args,
                card,
                tag,
            })
        }
        Chunk::Block(block) => Chunk::Block(block),
        Chunk::Cell(cell) => Chunk::Cell(cell),
    }
}

/// How many instances the chunk is, one or none.
fn insts_of(chunk: &Chunk) -> u8
    ensures value { result ≡ length (insts (chunk.now ∷ [])) }
    ensures most { result ≤ 1 }
{
    match chunk {
        Chunk::Inst(_) => 1,
        Chunk::Block(_) => 0,
        Chunk::Cell(_) => 0,
    }
}

/// The chunks, whose instances get the tag and cardinalities in their order.
pub(crate) fn with_tags(
    alloc: Global,
    card: Option<Var>,
    tag: u8,
    first: u8,
    chunks: List<Chunk>,
) -> Result<List<Chunk>, NoMemory>
    requires { first + length (insts chunks) < 256 }
    ensures { IfOk result (λ cs. cs ≡ with_tags card tag first chunks) }
{
    let mut tagged = Vec::new(alloc);
    let mut number = first;
    for chunk in chunks.into_vec() {
        let count = insts_of(&chunk);
        tagged.push(with_tag(card, tag, number, chunk))?;
        number += count;
    }
    Ok(List::from_vec(tagged))
}

/// How many of the chunks are instances.
pub(crate) fn count_insts(chunks: &[Chunk]) -> u8
    requires { length chunks.now ≤ 8 }
    ensures { result ≡ length (insts chunks.now) }
{
    let mut count = 0;
    for chunk in chunks {
        count += insts_of(chunk);
    }
    count
}

/// The cardinality with this number is below the other one.
fn below(number: u8, above: Var) -> Lit
    requires { IsTrue (sort_eq above.sort Card) }
    ensures { result ≡ Lt (var_term (card_var number)) (var_term above) }
{
    let number = Term::new(Some(card_var(number)), 0);
    Lit::Lt(number, Term::new(Some(above), 0))
}

/// Adds that each of this many new cardinalities is below the other one.
fn add_all_below(lits: &mut Vec<Lit>, above: Var, first: u8, count: u8) -> Result<(), NoMemory>
    requires card { IsTrue (sort_eq above.sort Card) }
    requires new { first + count < 256 }
    ensures { OnOk result (lits.new.items ≡ lits.old.items ++ below_card (Some above) (count_from first count)) }
{
    for k in 0..count {
        lits.push(below(first + k, above))?;
    }
    Ok(())
}

/// The literals, with those behind them that say that new cardinalities are below the unfolded
/// instance's.
pub(crate) fn with_below(
    lits: List<Lit>,
    card: Option<Var>,
    first: u8,
    count: u8,
) -> Result<List<Lit>, NoMemory>
    requires card { IsTrue (card_fits card) }
    requires new { first + cards_used card count < 256 }
    ensures { IfOk result (λ ls. ls ≡ lits ++ below_card card (count_from first count)) }
{
    let mut lits = lits.into_vec();
    if let Some(above) = card {
        add_all_below(&mut lits, above, first, count)?;
    }
    Ok(List::from_vec(lits))
}

/// The first number of the new cardinalities, and 0 where there are none.
pub(crate) fn first_number(card: Option<Var>, number: u8) -> u8
    ensures { result ≡ first_number card number }
{
    match card {
        Some(_) => number,
        None => 0,
    }
}

/// How many new cardinalities are taken.
pub(crate) fn cards_used(card: Option<Var>, count: u8) -> u8
    ensures { result ≡ cards_used card count }
{
    match card {
        Some(_) => count,
        None => 0,
    }
}
