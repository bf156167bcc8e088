ghost use Rattle.std.specs.Prelude.{◌≡◌, IfOk, IsTrue, cond, length, map, zip};
ghost use Rattle.cyp_print.specs.Lines.{next_numbers, number_or, old_names, old_variables};
ghost use Rattle.cyp_kernel.specs.Compile.{is_binder};
ghost use Rattle.cyp_kernel.specs.Naming.{name_of};
ghost use Rattle.cyp_pred.specs.Unfold.{count_from};
ghost use Rattle.cyp_step.specs.RuleKinds.{IsFlatRule};
ghost use Rattle.cyp_term.specs.Terms.{var_eq};

use cyp_goal::Renamed;
use cyp_heap::Node;
use cyp_step::{Rule, premises_of};
use cyp_term::{List, NoMemory, Var};
use std::alloc::Global;

fn is_same(var: Var, other: Var) -> bool
    ensures { result ≡ var_eq var other }
{
    var == other
}

/// The number of a variable in the program, or `otherwise` where it has none.
fn number_or(program: &[Var], numbers: &[u64], var: Var, otherwise: u64) -> u64
    ensures { result ≡ number_or (zip program.now numbers.now) otherwise var }
{
    for (place, number) in numbers.iter().enumerate() {
        match program.get(place) {
            None => return otherwise,
            Some(other) if is_same(*other, var) => return *number,
            Some(_) => {}
        }
    }
    otherwise
}

/// The number of a variable in the program, or 0 where it has none.
#[tactic(auto, using(crate::proofs::Looking::named_or_zero))]
pub(crate) fn name_of(program: &[Var], numbers: &[u64], var: Var) -> u64
    ensures { result ≡ name_of (zip program.now numbers.now) var }
{
    number_or(program, numbers, var, 0)
}

/// The numbers of these variables, and `otherwise` for each that has none.
fn numbers_of(
    alloc: Global,
    program: &[Var],
    numbers: &[u64],
    vars: &[Var],
    otherwise: u64,
) -> Result<Vec<u64>, NoMemory>
    ensures { IfOk result (λ ns. ns.items ≡ map (number_or (zip program.now numbers.now) otherwise) vars.now) }
{
    let mut found = Vec::new(alloc);
    for var in vars {
        found.push(number_or(program, numbers, *var, otherwise))?;
    }
    Ok(found)
}

/// Whether the rule binds a new program variable.
pub(crate) fn is_binder(rule: &Rule) -> bool
    ensures { result ≡ is_binder rule.now }
{
    matches!(rule, Rule::ByRead(_) | Rule::ByAlloc)
}

/// What the program variables of the first premise were called, and nothing where there is none.
fn old_names(alloc: Global, renamed: List<Renamed>) -> List<Var>
    ensures { result ≡ old_names renamed }
{
    if renamed.len() == 0 {
        return List::from_vec(Vec::new(alloc));
    }
    let mut renamed = renamed;
    let Renamed { node: _, old } = renamed.remove(0);
    old
}

/// What the program variables of the rule's premise were called at the node.
fn old_variables(alloc: Global, node: &Node, rule: &Rule) -> Result<List<Var>, NoMemory>
    requires { IsFlatRule rule.now }
    ensures { IfOk result (λ vs. vs ≡ old_variables node.now rule.now) }
{
    match premises_of(alloc, node, rule)? {
        Some(renamed) => Ok(old_names(alloc, renamed)),
        None => Ok(List::from_vec(Vec::new(alloc))),
    }
}

/// The number of the premise's variable that has no name at the node: the new one, where the rule binds
/// one.
fn unnamed_number(rule: &Rule, new: u64) -> u64
    ensures { result ≡ cond (is_binder rule.now) new 0 }
{
    if is_binder(rule) { new } else { 0 }
}

/// What the program variables of the rule's premise are called. There each is one of the node's, or
/// the new one.
pub(crate) fn next_numbers(
    alloc: Global,
    node: &Node,
    rule: &Rule,
    numbers: &[u64],
    new: u64,
) -> Result<Vec<u64>, NoMemory>
    requires flat { IsFlatRule rule.now }
    requires named { length numbers.now ≡ length node.now.goal.program }
    ensures { IfOk result (λ ns. ns.items ≡ next_numbers node.now rule.now numbers.now new) }
{
    let old = old_variables(alloc, node, rule)?;
    numbers_of(
        alloc,
        node.goal().program.as_slice(),
        numbers,
        old.as_slice(),
        unnamed_number(rule, new),
    )
}

/// The numbers of so many parameters.
pub(crate) fn parameter_numbers(alloc: Global, count: u64) -> Result<Vec<u64>, NoMemory>
    ensures { IfOk result (λ ns. ns.items ≡ count_from 1 count) }
{
    let mut numbers = Vec::new(alloc);
    for number in 0..count {
        numbers.push(number + 1)?;
    }
    Ok(numbers)
}
