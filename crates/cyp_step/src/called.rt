//! The goal after a call.

ghost use Rattle.std.specs.Prelude.{IfOk, OnOk, length, max, slice_get, suc, ◌+◌, ◌<◌, ◌==◌, ◌≡◌, ◌≤◌};
ghost use Rattle.std.specs.List.{list_any};
ghost use Rattle.cyp_heap.specs.Chunks.{insts, put_all};
ghost use Rattle.cyp_step.specs.Called.{card_behind, kept_unless, narrow_call, narrow_leaves, next_behind, post_under, tag_behind, wide_post, with_card, with_leaves, with_new_var};
ghost use Rattle.cyp_step.specs.Calling.{chunk_or_none, chunks_at, chunks_beside, next_tag, with_exist, with_new_cards};
ghost use Rattle.cyp_term.specs.Answers.{GivesUnless};

use crate::applying::apply_lits;
use crate::flat_goals::{set_of, with_pre};
use crate::next::next_of;
use crate::placing::put_all;
use cyp_heap::{Chunk, Goal, Heap, InstOf, Link, Node};
use cyp_pred::Next;
use cyp_term::{
    Copied, Fail, IntBind, List, Lit, NoMemory, SetBind, Sort, Subst, Term, TooWide, Var,
};
use cyp_unify::Match;
use std::alloc::Global;

const MOST_TAG: u8 = 4;

// ---- new variables

/// One more, where that is a number of a variable.
fn one_more(number: u8) -> Result<u8, NoMemory>
    ensures { IfOk result (λ n. n ≡ suc number) }
{
    number.checked_add(1).ok_or(NoMemory)
}

/// Binds the variable to a new one of its sort.
fn bind_new(alloc: Global, next: &mut Next, by: &mut Subst, var: Var) -> Result<(), NoMemory>
    ensures next { OnOk result (next.new ≡ next_behind next.old var) }
    ensures by { OnOk result (by.new ≡ with_new_var next.old var by.old) }
{
    if var.sort == Sort::Set {
        let new = Var {
            sort: Sort::Set,
            number: next.sets,
        };
        next.sets = one_more(next.sets)?;
        let to = set_of(alloc, new)?;
        by.sets.push(alloc, SetBind { var, to })
    } else {
        let new = Var {
            sort: Sort::Int,
            number: next.ints,
        };
        next.ints = one_more(next.ints)?;
        let to = Term::new(Some(new), 0);
        by.ints.push(alloc, IntBind { var, to })
    }
}

/// The bindings, and new variables for the existentials in order.
fn with_exist(alloc: Global, next: Next, exist: &[Var], by: &Subst) -> Result<Subst, NoMemory>
    ensures { IfOk result (λ b. b ≡ with_exist next exist.now by.now) }
{
    let mut next = next;
    let mut by = by.copy(alloc)?;
    for var in exist {
        bind_new(alloc, &mut next, &mut by, *var)?;
    }
    Ok(by)
}

// ---- what the companion leaves

/// The literals and the chunks of the companion's postcondition under the bindings. It is `TooWide`
/// exactly where an offset in them passes 2^32 in size.
fn post_under(
    alloc: Global,
    goal: &Goal,
    by: &Subst,
) -> Result<(List<Lit>, List<Chunk>), Fail<TooWide>>
    ensures { GivesUnless (wide_post by.now goal.now) (post_under by.now goal.now) result }
{
    let lits = apply_lits(alloc, goal.pure_post.as_slice(), by)?;
    let heap = goal.post.apply(alloc, by)?;
    Ok((lits, heap.into_chunks()))
}

/// The tag of what comes of an instance with this tag.
fn tag_behind(tag: u8) -> u8
    ensures { result ≡ tag_behind tag }
{
    if tag < MOST_TAG { tag + 1 } else { MOST_TAG }
}

/// The tag of what comes of the chunk at the place; 0 where it is no instance.
fn tag_at(chunks: &[Chunk], place: u8) -> u8
    ensures { result ≡ next_tag (insts (chunk_or_none (slice_get chunks.now place))) }
{
    match chunks.get(place as usize) {
        Some(Chunk::Inst(inst)) => tag_behind(inst.tag),
        _ => 0,
    }
}

fn greater(a: u8, b: u8) -> u8
    ensures { result ≡ max a b }
{
    if a < b { b } else { a }
}

/// One more than the greatest tag of the instances at the places, at most 4; 0 where there is none.
fn next_tag(chunks: &[Chunk], places: &[u8]) -> u8
    ensures { result ≡ next_tag (insts (chunks_at chunks.now places.now)) }
{
    let mut tag = 0;
    for place in places {
        tag = greater(tag, tag_at(chunks, *place));
    }
    tag
}

/// An instance with the tag and the cardinality; other chunks stay.
fn with_card(chunk: Chunk, tag: u8, card: u8) -> Chunk
    ensures { result ≡ with_card tag card chunk }
{
    match chunk {
        Chunk::Inst(inst) => Chunk::Inst(InstOf {
            pred: inst.pred,
            args: inst.args,
            card: Some(Var {
                sort: Sort::Card,
                number: card,
            }),
            tag,
        }),
        other => other,
    }
}

fn card_behind(card: u8, chunk: &Chunk) -> u8
    requires { card < 255 }
    ensures value { result ≡ card_behind card chunk.now }
    ensures most { result ≤ card + 1 }
{
    match chunk {
        Chunk::Inst(_) => card + 1,
        Chunk::Block(_) | Chunk::Cell(_) => card,
    }
}

/// The chunks, whose instances get the tag and new cardinalities from this number on.
fn with_new_cards(
    alloc: Global,
    chunks: List<Chunk>,
    tag: u8,
    card: u8,
) -> Result<List<Chunk>, NoMemory>
    requires card { card ≤ 32 }
    requires few { length chunks ≤ 16 }
    ensures { IfOk result (λ cs. cs ≡ with_new_cards tag card chunks) }
{
    let mut card = card;
    let mut made = Vec::with_capacity(alloc, chunks.len())?;
    for chunk in chunks.into_vec() {
        let behind = card_behind(card, &chunk);
        made.push(with_card(chunk, tag, card))?;
        card = behind;
    }
    Ok(List::from_vec(made))
}

/// What the companion leaves at a call by the match: literals and chunks. It is `None` where an offset
/// in them passes 2^32 in size.
fn leaves(
    alloc: Global,
    node: &Node,
    link: &Link,
    found: &Match,
) -> Result<Option<(List<Lit>, List<Chunk>)>, NoMemory>
    requires { length link.now.goal.post.chunks ≤ 16 }
    ensures { IfOk result (λ p. p ≡ narrow_leaves node.now link.now found.now) }
{
    let next = next_of(alloc, node)?;
    let goal = link.goal.get();
    let by = with_exist(alloc, next, goal.exist.as_slice(), &found.by)?;
    match post_under(alloc, goal, &by) {
        Ok((lits, chunks)) => {
            let tag = next_tag(node.goal().pre.chunks(), found.pairs.as_slice());
            Ok(Some((lits, with_new_cards(alloc, chunks, tag, next.cards)?)))
        }
        Err(Fail::Named(TooWide)) => Ok(None),
        Err(Fail::NoMemory) => Err(NoMemory),
    }
}

// ---- the goal

fn has(places: &[u8], place: u8) -> bool
    ensures { result ≡ list_any (λ j. j == place) places.now }
{
    places.contains(&place)
}

/// Adds a copy of the chunk, unless it goes.
fn add_kept(alloc: Global, kept: &mut Vec<Chunk>, chunk: &Chunk, goes: bool) -> Result<(), NoMemory>
    ensures { OnOk result (kept.new.items ≡ kept_unless goes kept.old.items chunk.now) }
{
    if !goes {
        kept.push(chunk.copy(alloc)?)?;
    }
    Ok(())
}

/// Copies of the chunks whose place is none of these.
fn chunks_beside(alloc: Global, chunks: &[Chunk], places: &[u8]) -> Result<List<Chunk>, NoMemory>
    requires { length chunks.now ≤ 16 }
    ensures { IfOk result (λ cs. cs ≡ chunks_beside 0 places.now chunks.now) }
{
    let mut kept = Vec::new(alloc);
    for place in 0..chunks.len() {
        let goes = has(places, place as u8);
        add_kept(alloc, &mut kept, &chunks[place], goes)?;
    }
    Ok(List::from_vec(kept))
}

/// The heap where the chunks at the places have gone, and these have come.
fn called_pre(alloc: Global, pre: &Heap, places: &[u8], left: List<Chunk>) -> Result<Heap, NoMemory>
    requires { length pre.now.chunks ≤ 16 }
    ensures { IfOk result (λ h. h.chunks ≡ put_all (chunks_beside 0 places.now pre.now.chunks) left) }
{
    let kept = chunks_beside(alloc, pre.chunks(), places)?;
    put_all(alloc, Heap::new(kept), left)
}

/// The goal where the chunks at the places have gone, and these literals and chunks have come.
fn with_leaves(
    alloc: Global,
    goal: &Goal,
    places: &[u8],
    lits: List<Lit>,
    chunks: List<Chunk>,
) -> Result<Goal, NoMemory>
    requires { length goal.now.pre.chunks ≤ 16 }
    ensures { IfOk result (λ g. g ≡ with_leaves goal.now places.now (lits, chunks)) }
{
    let pre = called_pre(alloc, &goal.pre, places, chunks)?;
    let mut called = with_pre(alloc, goal, pre)?;
    called.pure_pre.append(lits)?;
    Ok(called)
}

/// The goal after a call of the companion by the match, or `None` where an offset in what the
/// companion leaves passes 2^32 in size.
pub(crate) fn called_goal(
    alloc: Global,
    node: &Node,
    link: &Link,
    found: &Match,
) -> Result<Option<Goal>, NoMemory>
    requires { length link.now.goal.post.chunks ≤ 16 }
    ensures { IfOk result (λ g. g ≡ narrow_call node.now link.now found.now) }
{
    let goal = node.goal();
    match leaves(alloc, node, link, found)? {
        Some((lits, chunks)) => {
            let places = found.pairs.as_slice();
            Ok(Some(with_leaves(alloc, goal, places, lits, chunks)?))
        }
        None => Ok(None),
    }
}
