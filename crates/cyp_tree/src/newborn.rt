ghost use Rattle.std.specs.Prelude.{◌≡◌, ◌+◌, ◌++◌, ◌<◌, ◌≤◌, length, IfOk, OnOk};
ghost use Rattle.cyp_space.specs.Alts.{premises_in};
ghost use Rattle.cyp_tree.specs.Enlarged.{new_ways, way_places, new_places, fresh_status, AreCheap};

use crate::mark::Mark;
use crate::places::{Place, Run, Way};
use cyp_space::Alt;
use cyp_term::{Copied, NoMemory, Shared};
use std::alloc::Global;

/// The status of a node with these alternatives, whose premises are leaves.
pub fn fresh_status<R, N>(alts: &[Alt<R, N>]) -> Mark
    ensures { result ≡ fresh_status alts.now }
{
    let mut status = Mark::Failed;
    for alt in alts {
        if alt.premises().is_empty() {
            return Mark::Solved;
        }
        status = Mark::Undecided;
    }
    status
}

/// The alternatives as ways of a node, their premises numbered from here on.
pub fn new_ways<R: Copied + Drop, N>(
    alloc: Global,
    alts: &[Alt<R, N>],
    above: u32,
    first: u32,
) -> Result<Vec<Way<R>>, NoMemory>
    requires { first + premises_in alts.now < 4294967296 }
    ensures { IfOk result (λ ways. ways.items ≡ new_ways above first alts.now) }
{
    let mut ways = Vec::with_capacity(alloc, alts.len())?;
    let mut number = first;
    for alt in alts {
        let count = alt.premises().len() as u32;
        ways.push(Way {
            rule: alt.rule().copy(alloc)?,
            cost: alt.cost(),
            above,
            parts: Run {
                first: number,
                count,
            },
        })?;
        number += count;
    }
    Ok(ways)
}

/// Adds leaves for the premises of one way.
fn push_places<N: Drop>(
    alloc: Global,
    places: &mut Vec<Place<N>>,
    premises: &[Shared<N>],
    above: u32,
    cost: u32,
    level: u32,
) -> Result<(), NoMemory>
    ensures { OnOk result (places.new.items ≡ places.old.items ++ way_places above cost level premises.now) }
{
    for node in premises {
        places.push(Place {
            node: node.copy(alloc)?,
            above,
            cost,
            level,
            ways: None,
        })?;
    }
    Ok(())
}

/// Leaves for the premises of the alternatives, whose ways are numbered from here on, under a node
/// with this cost and this length of its path.
pub fn new_places<R, N: Drop>(
    alloc: Global,
    alts: &[Alt<R, N>],
    way: u32,
    cost: u32,
    level: u32,
) -> Result<Vec<Place<N>>, NoMemory>
    requires ways { way + length alts.now < 4294967296 }
    requires cost { cost ≤ 255000000 }
    requires level { level ≤ 1000000 }
    ensures places { IfOk result (λ places. places.items ≡ new_places way cost level alts.now) }
    ensures cheap { OnOk result (AreCheap alts.now (length alts.now)) }
{
    let mut places = Vec::new(alloc);
    let mut above = way;
    for alt in alts {
        push_places(
            alloc,
            &mut places,
            alt.premises(),
            above,
            cost + alt.cost(),
            level + 1,
        )?;
        above += 1;
    }
    Ok(places)
}
