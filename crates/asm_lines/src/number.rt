//! Numbers of at most 38 digits.

ghost use Rattle.std.specs.Prelude.{◌≡◌, ◌<◌, ◌^◌, IsTrue};
ghost use Rattle.std.specs.Char.{is_ascii_digit};
ghost use Rattle.std.specs.List.{list_all};
ghost use Rattle.std.specs.Str.Parse.{digits_value};
ghost use Rattle.asm_lines.specs.Line as spec;

use crate::front::{begins_with, behind_first};
use nk_base::number_of_digits;

/// The most digits that a number has.
const MOST_DIGITS: usize = 38;

/// Whether it is one to 38 digits.
pub fn is_number(text: &[u8]) -> bool
    ensures { result ≡ spec.is_number text.now }
{
    are_digits(text) && 1 <= text.len() && text.len() <= MOST_DIGITS
}

/// Whether each byte is a digit.
fn are_digits(text: &[u8]) -> bool
    ensures { result ≡ list_all is_ascii_digit text.now }
{
    text.iter().all(|c| c.is_ascii_digit())
}

/// Whether it is one to 38 digits, with a `-` before them or without.
pub fn is_signed_number(text: &[u8]) -> bool
    ensures { result ≡ spec.is_signed_number text.now }
{
    if begins_with(text, b'-') {
        is_number(behind_first(text))
    } else {
        is_number(text)
    }
}

/// The number that the digits write.
pub fn value(text: &[u8]) -> u128
    requires { IsTrue (spec.is_number text.now) }
    ensures exact { result ≡ digits_value 10 text.now }
    ensures small { result < 10 ^ 38 }
{
    match number_of_digits(text) {
        None => 0,
        Some(n) => n,
    }
}

/// The number that the digits write, behind their sign.
pub fn signed_value(text: &[u8]) -> i128
    requires { IsTrue (spec.is_signed_number text.now) }
    ensures { result ≡ spec.signed_value text.now }
{
    if begins_with(text, b'-') {
        -(value(behind_first(text)) as i128)
    } else {
        value(text) as i128
    }
}
