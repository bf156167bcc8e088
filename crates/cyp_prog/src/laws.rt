ghost use Rattle.cyp_prog.specs.Laws.{OneTree, SomeReading, OneReading, ReadIsNotRefused};

/// Law: lexemes spell one program's tree at most.
pub fn lexemes_spell_one_tree()
    ensures { OneTree }
{}

/// Law: a text has one reading and no other, a program or a fault.
pub fn a_text_has_one_reading()
    ensures some { SomeReading }
    ensures alone { OneReading }
{}

/// Law: no text that spells a program is refused.
pub fn a_read_text_is_not_refused()
    ensures { ReadIsNotRefused }
{}
