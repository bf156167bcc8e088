ghost use Rattle.std.specs.Prelude.{◌≡◌, ◌++◌, OnOk, decimal};
ghost use Rattle.cyp_prog.specs.ProgramText.{number_text, offset_text, var_text};

use cyp_term::NoMemory;
use itoa::Buffer;

/// Writes these bytes at the end.
pub(crate) fn add(text: &mut Vec<u8>, bytes: &[u8]) -> Result<(), NoMemory>
    ensures { OnOk result (text.new.items ≡ text.old.items ++ bytes.now) }
{
    text.extend_from_slice(bytes)?;
    Ok(())
}

/// Writes a number in decimal.
pub(crate) fn add_number(text: &mut Vec<u8>, number: u64) -> Result<(), NoMemory>
    ensures { OnOk result (text.new.items ≡ text.old.items ++ decimal number) }
{
    let mut buffer = Buffer::new();
    add(text, buffer.format(number).as_bytes())
}

/// Writes an integer in decimal, with `-` before a negative one.
#[tactic(auto, using(crate::proofs::Integers::signed_text))]
pub(crate) fn add_integer(text: &mut Vec<u8>, number: i64) -> Result<(), NoMemory>
    ensures { OnOk result (text.new.items ≡ text.old.items ++ number_text number) }
{
    let mut buffer = Buffer::new();
    add(text, buffer.format(number).as_bytes())
}

/// Writes a variable of the program.
pub(crate) fn add_variable(text: &mut Vec<u8>, number: u64) -> Result<(), NoMemory>
    ensures { OnOk result (text.new.items ≡ text.old.items ++ var_text number) }
{
    add(text, b"v")?;
    add_number(text, number)
}

/// Writes the offset behind a variable, with its sign between blanks; an offset 0 isn't written.
pub(crate) fn add_offset(text: &mut Vec<u8>, offset: i64) -> Result<(), NoMemory>
    ensures { OnOk result (text.new.items ≡ text.old.items ++ offset_text offset) }
{
    if offset == 0 {
        return Ok(());
    }
    add(text, if offset < 0 { b" - " } else { b" + " })?;
    add_number(text, offset.unsigned_abs())
}
