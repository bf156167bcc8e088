ghost use Rattle.std.specs.Prelude.{◌≡◌, ◌++◌, IfOk, OnOk};
ghost use Rattle.std.specs.List.{flat_map};
ghost use Rattle.cyp_term.specs.Terms.{base_eq, term_eq};
ghost use Rattle.cyp_goal.specs.Facts.{all_apart, apart, block_addresses, cell_addresses, facts};

use cyp_heap::{Chunk, Goal};
use cyp_term::{Copied, List, Lit, NoMemory, Term};
use std::alloc::Global;

fn add_apart(lits: &mut Vec<Lit>, a: Term, b: Term) -> Result<(), NoMemory>
    ensures { OnOk result (lits.new.items ≡ lits.old.items ++ apart a b) }
{
    if a.base() != b.base() || a.offset() == b.offset() {
        lits.push(Lit::Ne(a, b))?;
    }
    Ok(())
}

fn add_apart_from(lits: &mut Vec<Lit>, a: Term, others: &[Term]) -> Result<(), NoMemory>
    ensures { OnOk result (lits.new.items ≡ lits.old.items ++ flat_map (apart a) others.now) }
{
    for other in others {
        add_apart(lits, a, *other)?;
    }
    Ok(())
}

fn add_all_apart(lits: &mut Vec<Lit>, addresses: &[Term]) -> Result<(), NoMemory>
    ensures { OnOk result (lits.new.items ≡ lits.old.items ++ all_apart addresses.now) }
{
    for k in 0..addresses.len() {
        add_apart_from(lits, addresses[k], &addresses[k + 1..])?;
    }
    Ok(())
}

fn cells(alloc: Global, chunks: &[Chunk]) -> Result<Vec<Term>, NoMemory>
    ensures { IfOk result (λ ts. ts.items ≡ cell_addresses chunks.now) }
{
    let mut addresses = Vec::new(alloc);
    for chunk in chunks {
        if let Chunk::Cell(cell) = chunk {
            addresses.push(cell.at)?;
        }
    }
    Ok(addresses)
}

fn blocks(alloc: Global, chunks: &[Chunk]) -> Result<Vec<Term>, NoMemory>
    ensures { IfOk result (λ ts. ts.items ≡ block_addresses chunks.now) }
{
    let mut addresses = Vec::new(alloc);
    for chunk in chunks {
        if let Chunk::Block(block) = chunk {
            addresses.push(block.at())?;
        }
    }
    Ok(addresses)
}

/// A goal's facts: its pure precondition, that its cells lie apart, and that its blocks do.
pub fn facts(alloc: Global, goal: &Goal) -> Result<List<Lit>, NoMemory>
    ensures { IfOk result (λ ls. ls ≡ facts goal.now) }
{
    let mut lits = goal.pure_pre.copy(alloc)?.into_vec();
    let chunks = goal.pre.chunks();
    let at_cells = cells(alloc, chunks)?;
    let at_blocks = blocks(alloc, chunks)?;
    add_all_apart(&mut lits, at_cells.as_slice())?;
    add_all_apart(&mut lits, at_blocks.as_slice())?;
    Ok(List::from_vec(lits))
}
