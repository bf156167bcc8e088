ghost use Rattle.std.specs.Prelude.{◌≡◌, ◌++◌, ◌+◌, ◌<◌, ◌≤◌, ◌^◌, IfOk, IsTrue, OnOk, length, suc};
ghost use Rattle.cyp_print.specs.Found.{IsFound};
ghost use Rattle.cyp_print.specs.Lines.{main_lines, names_at, next_numbers, own_lines};
ghost use Rattle.cyp_kernel.specs.Compile.{bound_count};
ghost use Rattle.cyp_pred.specs.Unfold.{count_from};
ghost use Rattle.cyp_step.specs.RuleKinds.{IsFlatRule};
ghost use Rattle.cyp_tree.specs.Derivations.{plain_derivation};

use crate::lines::add_own_lines;
use crate::names::{is_binder, next_numbers, parameter_numbers};
use cyp_heap::Node;
use cyp_space::Solved;
use cyp_step::Rule;
use cyp_term::NoMemory;
use std::alloc::Global;

/// The numbers of a node's program variables in the program, in order, and how many numbers are
/// given so far.
#[derive(Drop)]
struct Scope {
    numbers: Vec<u64>,
    count: u64,
}

/// Parameters have the first numbers.
#[tactic(auto, using(crate::proofs::Steps::few_parameters))]
fn parameters(alloc: Global, node: &Node) -> Result<Scope, NoMemory>
    ensures numbers { IfOk result (λ s. s.numbers.items ≡ count_from 1 (length node.now.goal.program)) }
    ensures count { IfOk result (λ s. s.count ≡ length node.now.goal.program) }
    ensures few { IfOk result (λ s. s.count ≤ 12) }
{
    let count = node.goal().program.len() as u64;
    let numbers = parameter_numbers(alloc, count)?;
    Ok(Scope { numbers, count })
}

/// Writes the rule's own lines, and gives the numbers at its premise.
fn add_step(
    alloc: Global,
    text: &mut Vec<u8>,
    node: &Node,
    rule: &Rule,
    scope: Scope,
) -> Result<Scope, NoMemory>
    requires flat { IsFlatRule rule.now }
    requires named { length scope.numbers.items ≡ length node.now.goal.program }
    requires small { suc scope.count < 2 ^ 64 }
    ensures lines { IfOk result (λ _. text.new.items ≡ text.old.items ++ own_lines (names_at node.now scope.numbers.items) (suc scope.count) node.now rule.now) }
    ensures numbers { IfOk result (λ s. s.numbers.items ≡ next_numbers node.now rule.now scope.numbers.items (suc scope.count)) }
    ensures count { IfOk result (λ s. s.count ≡ bound_count rule.now scope.count) }
{
    let Scope { numbers, count } = scope;
    let new = count + 1;
    add_own_lines(text, node, rule, numbers.as_slice(), new)?;
    Ok(Scope {
        numbers: next_numbers(alloc, node, rule, numbers.as_slice(), new)?,
        count: if is_binder(rule) { new } else { count },
    })
}

/// Writes the body of the main procedure, down the chain of the derivation.
pub(crate) fn add_body(
    alloc: Global,
    text: &mut Vec<u8>,
    found: &Solved<Rule, Node>,
) -> Result<(), NoMemory>
    requires { IsFound (plain_derivation found.now) }
    ensures { OnOk result (text.new.items ≡ text.old.items ++ main_lines (plain_derivation found.now)) }
{
    let mut left = found;
    let mut scope = parameters(alloc, left.node.get())?;
    while let Some(part) = left.parts.as_slice().first() {
        scope = add_step(alloc, text, left.node.get(), &left.rule, scope)?;
        left = part;
    }
    add_own_lines(
        text,
        left.node.get(),
        &left.rule,
        scope.numbers.as_slice(),
        scope.count + 1,
    )
}
