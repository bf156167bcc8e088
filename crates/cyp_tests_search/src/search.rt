ghost use Rattle.std.specs.Prelude.{◌≡◌, [], ◌∷◌, IfOk};

use cyp_search::search;
use cyp_space::{Alt, Moves, Report, Settings, Space, Stop, Stopped, Verdict};
use cyp_term::{Fail, List, NoMemory, Shared};
use std::alloc::Global;
use std::test::Fail as Failed;

#[derive(Clone, Copy, Debug, PartialEq, Eq)]
struct Spot {
    number: u8,
}

/// From spot 0 a way of cost 1 leads to spot 1, and a second way to another spot. Spot 1 may be
/// solved, and nothing leads on from any other.
#[derive(Clone, Copy, Debug, PartialEq, Eq)]
struct Fork {
    solvable: bool,
    other: u8,
    second: u8,
}

fn way(alloc: Global, rule: u8, cost: u8, number: u8) -> Result<Alt<u8, Spot>, NoMemory>
    ensures { IfOk result (λ a. a ≡ record { rule = rule; cost = cost; premises = record { number = number } ∷ [] }) }
{
    let mut premises = Vec::new(alloc);
    premises.push(Shared::new(alloc, Spot { number })?)?;
    Ok(Alt::new(rule, u32::from(cost), List::from_vec(premises)))
}

impl Space for Fork {
    ghost use Rattle.std.specs.Prelude.{[], ◌∷◌, ◌==◌, ◌&&◌, if◌then◌else◌};

    type Node = Spot;

    type Rule = u8;

    ghost moves_of = { λ s n.
        if n.number == 0 then record { rule = 1; cost = 1; premises = record { number = 1 } ∷ [] } ∷ record { rule = 2; cost = s.second; premises = record { number = s.other } ∷ [] } ∷ []
        else (if s.solvable && (n.number == 1) then record { rule = 3; cost = 1; premises = [] } ∷ [] else []) };

    ghost weight_of = { λ _ _. 0 };

    fn moves<P: Stop>(
        &self,
        alloc: Global,
        node: &Shared<Spot>,
        _stop: &mut P,
    ) -> Result<Moves<u8, Spot>, Fail<Stopped>> {
        let number = node.get().number;
        let mut alts = Vec::new(alloc);
        if number == 0 {
            alts.push(way(alloc, 1, 1, 1)?)?;
            alts.push(way(alloc, 2, self.second, self.other)?)?;
        } else if self.solvable && number == 1 {
            alts.push(Alt::new(3, 1, List::from_vec(Vec::new(alloc))))?;
        }
        Ok(Moves::new(List::from_vec(alts)))
    }

    fn weight(&self, _node: &Spot) -> u32 {
        0
    }

    fn same(&self, other: &Fork) -> bool {
        self == other
    }
}

fn searched(alloc: Global, fork: &Fork) -> Result<Report<u8, Spot>, NoMemory> {
    let root = Shared::new(alloc, Spot { number: 0 })?;
    search(alloc, fork, root, &Settings::default())
}

#[test]
fn first_of_two_ways_or_none(rt: HostRuntime) -> Result<(), Failed> {
    let stuck = Fork {
        solvable: false,
        other: 1,
        second: 1,
    };
    let report = searched(rt.alloc(), &stuck)?;
    assert!(rt; matches!(report.verdict, Verdict::None));
    assert_eq!(rt; report.expansions, 3);
    assert_eq!(rt; report.nodes, 3);
    assert_eq!(rt; report.depth, 1);

    let solvable = Fork {
        solvable: true,
        other: 2,
        second: 2,
    };
    let report = searched(rt.alloc(), &solvable)?;
    assert_eq!(rt; report.expansions, 2);
    assert_eq!(rt; report.nodes, 3);
    match &report.verdict {
        Verdict::Found(derivation) => {
            assert_eq!(rt; derivation.rule, 1);
            assert_eq!(rt; derivation.parts.len(), 1);
            assert_eq!(rt; derivation.parts.as_slice()[0].rule, 3);
        }
        _ => assert!(rt; false, "not found"),
    }
    Ok(())
}
