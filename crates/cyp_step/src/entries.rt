//! What an instance of a node unfolds to.

ghost use Rattle.std.specs.Prelude.{IfOk, IsTrue, option_map, slice_get, ◌<◌, ◌≡◌, ◌≤◌};
ghost use Rattle.cyp_heap.specs.Formed.{inst_fits};
ghost use Rattle.cyp_pred.specs.Unfold.{unfold_inst};
ghost use Rattle.cyp_pred.specs.Unfoldable.{card_fits};
ghost use Rattle.cyp_step.specs.UnfoldParts.{AreUnfolded, IsUnfolded, inst_in};

use cyp_heap::{Chunk, InstOf, Node};
use cyp_pred::{Next, Unfolded, unfold, unfold_one};
use cyp_term::{Fail, List, NoMemory, TooWide};
use std::alloc::Global;

/// The instance at the place.
pub(crate) fn inst_in(chunks: &[Chunk], place: usize) -> Option<&InstOf>
    ensures { option_map (λ i. i.now) result ≡ inst_in (slice_get chunks.now place) }
{
    match chunks.get(place) {
        Some(Chunk::Inst(inst)) => Some(inst),
        _ => None,
    }
}

/// One entry for each clause, or `None` where an offset passes 2^32.
pub(crate) fn all_entries(
    alloc: Global,
    node: &Node,
    inst: &InstOf,
    next: Next,
) -> Result<Option<List<Unfolded>>, NoMemory>
    requires fits { IsTrue (inst_fits node.now.preds inst.now) }
    requires card { IsTrue (card_fits inst.now.card) }
    requires tag { inst.now.tag < 255 }
    requires ints { next.ints ≤ 32 }
    requires cards { next.cards ≤ 32 }
    requires sets { next.sets ≤ 32 }
    ensures { IfOk result (λ us. AreUnfolded (unfold_inst node.now.preds inst.now next) us) }
{
    let preds = node.preds().get();
    let _list = preds.list();
    match unfold(alloc, preds, inst, next) {
        Ok(entries) => Ok(Some(entries)),
        Err(Fail::Named(TooWide)) => Ok(None),
        Err(Fail::NoMemory) => Err(NoMemory),
    }
}

/// The entry of one clause, or `None` where there is none or an offset of it passes 2^32.
pub(crate) fn one_entry(
    alloc: Global,
    node: &Node,
    inst: &InstOf,
    next: Next,
    clause: u8,
) -> Result<Option<Unfolded>, NoMemory>
    requires fits { IsTrue (inst_fits node.now.preds inst.now) }
    requires card { IsTrue (card_fits inst.now.card) }
    requires tag { inst.now.tag < 255 }
    requires ints { next.ints ≤ 32 }
    requires cards { next.cards ≤ 32 }
    requires sets { next.sets ≤ 32 }
    ensures { IfOk result (λ u. IsUnfolded (slice_get (unfold_inst node.now.preds inst.now next) clause) u) }
{
    let preds = node.preds().get();
    let _list = preds.list();
    match unfold_one(alloc, preds, inst, next, clause) {
        Ok(entry) => Ok(entry),
        Err(Fail::Named(TooWide)) => Ok(None),
        Err(Fail::NoMemory) => Err(NoMemory),
    }
}
