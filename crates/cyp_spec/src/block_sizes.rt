ghost use Rattle.std.specs.Prelude.{◌≡◌};
ghost use Rattle.std.specs.List.{list_any};
ghost use Rattle.cyp_names.specs.Bodies.{is_cell, is_instance};
ghost use Rattle.cyp_names.specs.PredFaults.{size_fault, size_faults, unproductive_fault};
ghost use Rattle.cyp_names.specs.FaultOrder.{least_fault};

use cyp_lex::{Fault, FaultKind};
use cyp_names::{fault, lesser};
use cyp_text::{BodyTree, ChunkTree, ClauseTree};

/// A block has 1 to 8 cells.
fn size_fault(chunk: &ChunkTree) -> Option<Fault>
    ensures { result ≡ least_fault (size_fault chunk.now) }
{
    match chunk {
        ChunkTree::BlockOf(_, place, size) => {
            if *size < 1 || *size > 8 {
                fault(FaultKind::TooLarge, *place)
            } else {
                None
            }
        }
        _ => None,
    }
}

/// The least fault of the sizes of blocks in a body.
pub(crate) fn sizes_fault(body: &BodyTree) -> Option<Fault>
    ensures { result ≡ least_fault (size_faults body.now) }
{
    let chunks = body.chunks.as_slice();
    let mut least = None;
    for chunk in chunks {
        least = lesser(least, size_fault(chunk));
    }
    least
}

fn is_instance(chunk: &ChunkTree) -> bool
    ensures { result ≡ is_instance chunk.now }
{
    match chunk {
        ChunkTree::InstanceOf(_, _) => true,
        _ => false,
    }
}

fn is_cell(chunk: &ChunkTree) -> bool
    ensures { result ≡ is_cell chunk.now }
{
    match chunk {
        ChunkTree::NamedCell(_, _) | ChunkTree::TermCell(_, _) => true,
        _ => false,
    }
}

fn has_instance(chunks: &[ChunkTree]) -> bool
    ensures { result ≡ list_any is_instance chunks.now }
{
    chunks.iter().any(|chunk| is_instance(chunk))
}

fn has_cell(chunks: &[ChunkTree]) -> bool
    ensures { result ≡ list_any is_cell chunks.now }
{
    chunks.iter().any(|chunk| is_cell(chunk))
}

/// A clause with an instance has a cell.
pub(crate) fn owner_fault(clause: &ClauseTree) -> Option<Fault>
    ensures { result ≡ least_fault (unproductive_fault clause.now) }
{
    let chunks = clause.body.chunks.as_slice();
    if has_instance(chunks) && !has_cell(chunks) {
        fault(FaultKind::Unproductive, clause.place)
    } else {
        None
    }
}
