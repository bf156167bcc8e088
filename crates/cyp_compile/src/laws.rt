ghost use Rattle.cyp_compile.specs.Rules.{ProgramsKeepRules};

/// Law: the program of a derivation keeps the rules of variables, arguments and names; what is left to look at is the size of each procedure.
pub fn programs_keep_the_rules()
    ensures { ProgramsKeepRules }
{}
