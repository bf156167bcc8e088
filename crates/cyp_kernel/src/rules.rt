ghost use Rattle.cyp_kernel.specs.CallLaw.{CallLaw};
ghost use Rattle.cyp_kernel.specs.RuleLaws.{RuleLaw};
ghost use Rattle.cyp_step.specs.declared.rule.CallBy.{CallBy};
ghost use Rattle.cyp_step.specs.declared.rule.Rule.TheVariants.{ByAlloc, ByClose, ByEmp, ByFrame, ByFree, ByInconsistent, ByOpen, ByPick, ByRead, ByWrite};
ghost use Rattle.cyp_term.specs.declared.term.Var.{Var};
ghost use Rattle.std.specs.Prelude.{ℕ};

/// Law: where the bodies of a rule's premises, before their normal forms, meet the premises' goals,
/// the body of the node that the rule stands for meets the node's goal.
pub fn flat_rules_are_sound()
    ensures inconsistent { RuleLaw ByInconsistent }
    ensures emp { RuleLaw ByEmp }
    ensures read { (i : ℕ) → RuleLaw (ByRead i) }
    ensures frame { (i : ℕ) → RuleLaw (ByFrame i) }
    ensures write { (i : ℕ) → RuleLaw (ByWrite i) }
    ensures free { (i : ℕ) → RuleLaw (ByFree i) }
    ensures alloc { RuleLaw ByAlloc }
    ensures pick { (v : Var) → RuleLaw (ByPick v) }
{}

/// Law: so it is for the rules that unfold an instance, over predicates of which no two guards can
/// both hold.
pub fn unfolding_rules_are_sound()
    ensures open { (i : ℕ) → RuleLaw (ByOpen i) }
    ensures close { (k : ℕ) → RuleLaw (ByClose k) }
{}

/// Law: so it is for a call of a companion, where the goals of the companions are as the rules ask.
pub fn call_rule_is_sound()
    ensures { (c : CallBy) → CallLaw c }
{}
