ghost use Rattle.cyp_machine.specs.RunInputLaws.{OneInputTree, SomeInputReading, OneInputReading};

/// Law: lexemes spell one tree of a run's input at most.
pub fn lexemes_spell_one_input()
    ensures { OneInputTree }
{}

/// Law: a text has one reading and no other, the input of a run or a fault.
pub fn an_input_has_one_reading()
    ensures some { SomeInputReading }
    ensures alone { OneInputReading }
{}
