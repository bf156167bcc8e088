ghost use Rattle.std.specs.Prelude.{◌≡◌, ◌≤◌};
ghost use Rattle.cyp_moves.specs.Moves.{cost_of};

use cyp_step::Rule;

/// What a step by the rule costs a path.
pub fn cost_of(rule: &Rule) -> u32
    ensures value { result ≡ cost_of rule.now }
    ensures most { result ≤ 6 }
{
    match rule {
        Rule::ByInconsistent | Rule::ByEmp | Rule::ByRead(_) => 0,
        Rule::ByFrame(_) | Rule::ByWrite(_) | Rule::ByFree(_) => 1,
        Rule::ByAlloc | Rule::ByCall(_) => 3,
        Rule::ByClose(_) => 4,
        Rule::ByOpen(_) => 5,
        Rule::ByPick(_) => 6,
    }
}
