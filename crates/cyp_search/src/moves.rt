ghost use Rattle.std.specs.Prelude.{◌≡◌, IfOk};

use cyp_space::{Moves, Never, Space};
use cyp_term::{Fail, NoMemory, Shared};
use std::alloc::Global;

/// The moves of a node, with no wish to stop.
pub fn moves_of<S: Space>(
    alloc: Global,
    space: &S,
    node: &Shared<S::Node>,
) -> Result<Moves<S::Rule, S::Node>, NoMemory>
    ensures { IfOk result (λ moves. moves ≡ S.moves_of space.now node.now) }
{
    let mut never = Never;
    match space.moves(alloc, node, &mut never) {
        Ok(moves) => Ok(moves),
        Err(Fail::NoMemory) => Err(NoMemory),
        Err(Fail::Named(_)) => unreachable!(),
    }
}
