ghost use Rattle.cyp_kernel.specs.NormalRules.{NodeRuleLaw, NormalRuleLaw};
ghost use Rattle.cyp_kernel.specs.RuleLaws.{RuleLaw};
ghost use Rattle.cyp_step.specs.declared.rule.CallBy.{CallBy};
ghost use Rattle.cyp_step.specs.declared.rule.Rule.{Rule};
ghost use Rattle.cyp_step.specs.declared.rule.Rule.TheVariants.{ByAlloc, ByCall, ByClose, ByEmp, ByFrame, ByFree, ByInconsistent, ByOpen, ByPick, ByRead, ByWrite};
ghost use Rattle.cyp_term.specs.declared.term.Var.{Var};
ghost use Rattle.std.specs.Prelude.{ℕ};

/// Law: where the bodies of a rule's premises meet the premises' goals, under the names that are passed
/// on, the body of the node that the rule stands for meets the node's goal.
pub fn rules_are_sound_in_normal_form()
    ensures at { (r : Rule) → RuleLaw r → NodeRuleLaw r }
    ensures each { (r : Rule) → NodeRuleLaw r → NormalRuleLaw r }
    ensures inconsistent { NormalRuleLaw ByInconsistent }
    ensures emp { NormalRuleLaw ByEmp }
    ensures read { (i : ℕ) → NormalRuleLaw (ByRead i) }
    ensures frame { (i : ℕ) → NormalRuleLaw (ByFrame i) }
    ensures write { (i : ℕ) → NormalRuleLaw (ByWrite i) }
    ensures free { (i : ℕ) → NormalRuleLaw (ByFree i) }
    ensures alloc { NormalRuleLaw ByAlloc }
    ensures pick { (v : Var) → NormalRuleLaw (ByPick v) }
    ensures open { (i : ℕ) → NormalRuleLaw (ByOpen i) }
    ensures close { (c : ℕ) → NormalRuleLaw (ByClose c) }
    ensures call { (c : CallBy) → NormalRuleLaw (ByCall c) }
{}
