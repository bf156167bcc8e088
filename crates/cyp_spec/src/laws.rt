ghost use Rattle.cyp_spec.specs.ReadingLaws.{OneReading, ReadNotRefused, SomeReading};

/// Law: a text has a reading, which is its specification or its one fault, and it has no other.
pub fn a_text_has_one_reading()
    ensures some { SomeReading }
    ensures one { OneReading }
{}

/// Law: no text is both read and refused.
pub fn no_text_is_read_and_refused()
    ensures { ReadNotRefused }
{}
