ghost use Rattle.std.specs.Prelude.{◌≡◌, ◌+◌, ◌++◌, ◌≤◌, IfOk, length};
ghost use Rattle.std.specs.List.{All};
ghost use Rattle.cyp_diff.specs.Solution.{IsLow, at};
ghost use Rattle.cyp_diff.specs.Solving.{AreInts, SolveMeans, values_from, variables};

use crate::places::table_of;
use crate::system::integers_of;
use cyp_term::{Copied, List, Lit, NoMemory, Var};
use std::alloc::Global;

/// The integer of a variable.
#[derive(Clone, Copy, Debug)]
pub struct Value {
    pub var: Var,
    pub value: i64,
}

fn values_of(alloc: Global, vars: &[Var], xs: &[i64]) -> Result<List<Value>, NoMemory>
    requires places { length xs.now ≡ length vars.now + 1 }
    requires low { All IsLow xs.now }
    ensures { IfOk result (λ bs. bs ≡ values_from (at xs.now) vars.now 1) }
{
    let mut values = Vec::new(alloc);
    for k in 0..vars.len() {
        values.push(Value {
            var: vars[k],
            value: xs[k + 1] - xs[0],
        })?;
    }
    Ok(List::from_vec(values))
}

/// Integers for the variables of the literals, of which there are at most 32, that make all literals true, or `None` where no
/// integers do.
pub fn solve(alloc: Global, lits: &[Lit]) -> Result<Option<List<Value>>, NoMemory>
    requires ints { AreInts lits.now }
    requires few { length (variables lits.now) ≤ 32 }
    ensures { IfOk result (SolveMeans lits.now) }
{
    let vars = table_of(alloc, lits)?;
    match integers_of(alloc, &vars, lits)? {
        Some(xs) => Ok(Some(values_of(alloc, vars.as_slice(), xs.as_slice())?)),
        None => Ok(None),
    }
}

/// As `solve`, for the literals of both lists.
pub fn solve_with(
    alloc: Global,
    lits: &[Lit],
    more: &[Lit],
) -> Result<Option<List<Value>>, NoMemory>
    requires ints { AreInts (lits.now ++ more.now) }
    requires few { length (variables (lits.now ++ more.now)) ≤ 32 }
    ensures { IfOk result (SolveMeans (lits.now ++ more.now)) }
{
    let mut all = Vec::new(alloc);
    for lit in lits {
        all.push(lit.copy(alloc)?)?;
    }
    for lit in more {
        all.push(lit.copy(alloc)?)?;
    }
    solve(alloc, all.as_slice())
}
