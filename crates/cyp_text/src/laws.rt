ghost use Rattle.cyp_text.specs.GrammarLaws.{OneTree};

/// Law: lexemes spell one tree of a specification at most.
pub fn lexemes_spell_one_tree()
    ensures { OneTree }
{}
