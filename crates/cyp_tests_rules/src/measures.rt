//! Tests of measures.

ghost use Rattle.std.specs.Prelude.{IfOk, [], ◌≡◌, ◌∷◌};

use cyp_measure::{decreases, levels};
use cyp_term::{List, Lit, NoMemory, Sort, Term, Var};
use std::alloc::Global;
use std::test::Fail;

/// The variable of this number.
fn variable(number: u8) -> Term {
    let var = Var {
        sort: Sort::Int,
        number,
    };
    Term::new(Some(var), 0)
}

fn one<T: Drop>(alloc: Global, item: T) -> Result<List<T>, NoMemory>
    ensures { IfOk result (λ xs. xs ≡ item ∷ []) }
{
    let mut items = List::from_vec(Vec::new(alloc));
    items.push(alloc, item)?;
    Ok(items)
}

/// The ways in which the measure of the first and second variable falls to that of the first and
/// third.
fn ways(alloc: Global) -> Result<List<List<Lit>>, NoMemory> {
    let (a, b, c) = (variable(0), variable(1), variable(2));
    decreases(alloc, &[a, b], &[a, c])
}

/// That the first falls, or that it doesn't rise and the third is below the second.
fn expected_ways(alloc: Global) -> Result<List<List<Lit>>, NoMemory> {
    let (a, b, c) = (variable(0), variable(1), variable(2));
    let mut then = one(alloc, Lit::Le(a, a))?;
    then.push(alloc, Lit::Lt(c, b))?;
    let mut ways = one(alloc, one(alloc, Lit::Lt(a, a))?)?;
    ways.push(alloc, then)?;
    Ok(ways)
}

fn levels_of_one(alloc: Global, number: u64) -> Result<List<u64>, NoMemory> {
    let tuple = one(alloc, number)?;
    levels(alloc, &[tuple])
}

/// Whether these are the numbers at the first places of the two groups, and zeros behind them.
fn are_levels(numbers: &List<u64>, number: u64) -> bool {
    let mut expected = [0; 68];
    expected[1] = number;
    expected[17] = 1;
    numbers.as_slice() == expected.as_slice()
}

fn has_levels(alloc: Global, number: u64) -> Result<bool, NoMemory> {
    let numbers = levels_of_one(alloc, number)?;
    Ok(are_levels(&numbers, number))
}

#[test]
fn a_measure_falls_at_its_first_place_or_at_a_later_one(rt: HostRuntime) -> Result<(), Fail> {
    let alloc = rt.alloc();
    assert_eq!(rt; ways(alloc)?, expected_ways(alloc)?);
    Ok(())
}

#[test]
fn a_tuple_has_a_group_and_the_mark_one_behind_it(rt: HostRuntime) -> Result<(), Fail> {
    let alloc = rt.alloc();
    assert!(rt; has_levels(alloc, 3)?);
    Ok(())
}
