ghost use Rattle.std.specs.Prelude.{◌≡◌, ◌≤◌};
ghost use Rattle.std.specs.List.{list_all};
ghost use Rattle.cyp_lex.specs.Lexing.{decimal_value, is_digit, number_result};
ghost use Rattle.cyp_words.specs.Options.{is_number as is_number_text, number_within as the_number_within};

/// The most digits of a number.
const MOST_DIGITS: usize = 7;

/// The byte is `0` to `9`.
fn is_digit_byte(byte: u8) -> bool
    ensures { result ≡ is_digit byte }
{
    b'0' <= byte && byte <= b'9'
}

fn are_digits(text: &[u8]) -> bool
    ensures { result ≡ list_all is_digit text.now }
{
    for byte in text {
        if !is_digit_byte(*byte) {
            return false;
        }
    }
    true
}

/// The text is one to seven digits.
pub fn is_number(text: &str) -> bool
    ensures { result ≡ is_number_text text.now }
{
    1 <= text.len() && text.len() <= MOST_DIGITS && are_digits(text.as_bytes())
}

/// The number that the digits write, if it isn't above the greatest.
fn value_up_to(greatest: u32, digits: &[u8]) -> Option<u32>
    requires { greatest ≤ 1000000 }
    ensures { result ≡ number_result greatest (decimal_value 0 digits.now) }
{
    let mut value = 0;
    for digit in digits {
        value = 10 * value + (digit.saturating_sub(b'0')) as u32;
        if value > greatest {
            return None;
        }
    }
    Some(value)
}

/// The number of one to seven digits that the text writes, where it is in these bounds.
pub fn number_within(least: u32, most: u32, text: &str) -> Option<u32>
    requires { most ≤ 1000000 }
    ensures { result ≡ the_number_within least most text.now }
{
    if !is_number(text) {
        return None;
    }
    let value = value_up_to(most, text.as_bytes())?;
    if least <= value { Some(value) } else { None }
}
