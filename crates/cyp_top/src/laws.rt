ghost use Rattle.cyp_top.specs.Correctness.{WrittenIsCorrect};
ghost use Rattle.cyp_top.specs.WholeOutput.{OneWholeOutput, SomeWholeOutput};
ghost use Rattle.cyp_top.specs.Workers.{WorkersChangeNothing};

/// Law: words and bytes have an output and no other, whatever the command is.
pub fn whole_output_is_one()
    ensures some { SomeWholeOutput }
    ensures alone { OneWholeOutput }
{}

/// Law: words that differ in the number of workers alone have the same output.
pub fn workers_change_nothing()
    ensures { WorkersChangeNothing }
{}

/// Law: what is written with the status of a program is the text of one, made from the derivation that
/// the search found for the specification that the bytes are read as, and that program is correct for it.
pub fn written_programs_are_correct()
    ensures { WrittenIsCorrect }
{}
