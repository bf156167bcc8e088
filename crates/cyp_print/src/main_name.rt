ghost use Rattle.std.specs.Prelude.{◌≡◌, ◌++◌, ◌≤◌, OnOk};
ghost use Rattle.cyp_print.specs.ShortNumbers.{is_short_from, with_digit};
ghost use Rattle.cyp_kernel.specs.Compile.{main_name};
ghost use Rattle.cyp_prog.specs.Lexemes.{is_variable_name};

use crate::bytes::add;
use cyp_term::NoMemory;

/// The number with a digit behind it, or none where that is no digit or the number is too large.
fn with_digit(number: u32, digit: u8) -> Option<u32>
    requires { number ≤ 65535 }
    ensures { result ≡ with_digit number digit }
{
    if !digit.is_ascii_digit() {
        return None;
    }
    let longer = 10 * number + u32::from(digit - b'0');
    if longer <= 65535 { Some(longer) } else { None }
}

/// Whether all are digits, of a number of at most 65,535.
fn is_short_number(digits: &[u8]) -> bool
    ensures { result ≡ is_short_from 0 digits.now }
{
    let mut number = 0;
    for digit in digits {
        match with_digit(number, *digit) {
            Some(longer) => number = longer,
            None => return false,
        }
    }
    true
}

/// Whether the name is `v` and a number from 1 to 65,535 without leading zeros.
fn is_variable_name(name: &[u8]) -> bool
    ensures { result ≡ is_variable_name name.now }
{
    match name {
        [first, second, ..] => *first == b'v' && *second != b'0' && is_short_number(&name[1..]),
        _ => false,
    }
}

/// Writes the name of the main procedure: a name that is a variable's gets `_0` behind it.
pub(crate) fn add_main_name(text: &mut Vec<u8>, name: &[u8]) -> Result<(), NoMemory>
    ensures { OnOk result (text.new.items ≡ text.old.items ++ main_name name.now) }
{
    add(text, name)?;
    if is_variable_name(name) {
        add(text, b"_0")?;
    }
    Ok(())
}
