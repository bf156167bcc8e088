ghost use Rattle.cyp_printed.specs.PrintingLaws.{PrintedIsRead};

/// Law: a specification that was read is what its printed text is read as, where that text is no
/// longer than a text that is read may be.
pub fn what_is_printed_is_read()
    ensures { PrintedIsRead }
{}
