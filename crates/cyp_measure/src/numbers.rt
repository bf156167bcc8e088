ghost use Rattle.std.specs.Prelude.{◌≡◌, ◌≤◌, ◌++◌, All, IfOk, OnOk, flat_map, length, replicate};
ghost use Rattle.cyp_measure.specs.Levels.{group, levels as the_levels};

use cyp_term::{List, NoMemory};
use std::alloc::Global;

/// The numbers of a group, of which the first is its mark.
const GROUP: usize = 17;

/// The most groups.
const GROUPS: usize = 4;

/// Adds so many zeros.
fn add_zeros(numbers: &mut Vec<u64>, count: usize) -> Result<(), NoMemory>
    ensures { OnOk result (numbers.new.items ≡ numbers.old.items ++ replicate count 0) }
{
    for _place in 0..count {
        numbers.push(0)?;
    }
    Ok(())
}

/// Adds the group of the tuple.
fn add_group(numbers: &mut Vec<u64>, tuple: &[u64]) -> Result<(), NoMemory>
    requires { length tuple.now ≤ 16 }
    ensures { OnOk result (numbers.new.items ≡ numbers.old.items ++ group tuple.now) }
{
    numbers.push(0)?;
    for number in tuple {
        numbers.push(*number)?;
    }
    add_zeros(numbers, GROUP - 1 - tuple.len())
}

/// The groups of the tuples, one behind the other.
fn groups_of(alloc: Global, tuples: &[List<u64>]) -> Result<Vec<u64>, NoMemory>
    requires { All (λ t. length t ≤ 16) tuples.now }
    ensures { IfOk result (λ ns. ns.items ≡ flat_map group tuples.now) }
{
    let mut numbers = Vec::new(alloc);
    for tuple in tuples {
        add_group(&mut numbers, tuple.as_slice())?;
    }
    Ok(numbers)
}

/// The measures of companions inside one another as one list of 68 numbers, which falls where one of
/// them does, or where a further tuple is added.
#[tactic(auto, using(crate::proofs::Groups::levels_fewer, crate::proofs::Groups::levels_full))]
pub fn levels(alloc: Global, tuples: &[List<u64>]) -> Result<List<u64>, NoMemory>
    requires few { length tuples.now ≤ 4 }
    requires short { All (λ t. length t ≤ 16) tuples.now }
    ensures { IfOk result (λ ns. ns ≡ the_levels tuples.now) }
{
    let mut numbers = groups_of(alloc, tuples)?;
    if tuples.len() < GROUPS {
        numbers.push(1)?;
        let zeros = GROUP * (GROUPS - tuples.len()) - 1;
        add_zeros(&mut numbers, zeros)?;
    }
    Ok(List::from_vec(numbers))
}
