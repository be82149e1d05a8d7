//! The number that a line writes.

ghost use Rattle.std.specs.Prelude.{◌≡◌, ◌≤◌, ◌<◌, ◌^◌, ◌<ℤ◌, true, pos, neg_ℤ, length, IfOk, IfSome};
ghost use Rattle.std.specs.Char.{is_ascii_digit};
ghost use Rattle.std.specs.List.{list_all, prefix_len};
ghost use Rattle.std.specs.Str.Parse.{digits_value};
ghost use Rattle.nk_base.specs.Byte as byte;
ghost use Rattle.input_lines.specs.Input as spec;
ghost use Rattle.input_lines.specs.Reading.{IsInput, TakesLine};

use nk_base::byte::is_blank;
use nk_base::{Memory, Ty, digits_len, number_of_digits};
use nk_range::is_in_range;

/// Appends the number that the line writes, if it isn't blank; `false` where it writes none of the type.
pub fn push_line(line: &[u8], ty: Option<Ty>, numbers: &mut Vec<i64>) -> Result<bool, Memory>
    requires { IsInput ty }
    ensures { IfOk result (λ b. TakesLine ty line.now numbers.old.items numbers.new.items b) }
{
    if are_blank(line) {
        return Ok(true);
    }
    match signed_number(behind_blanks(line)) {
        Some(number) => {
            if is_wanted(ty, number) {
                numbers.push(number as i64)?;
                Ok(true)
            } else {
                Ok(false)
            }
        }
        None => Ok(false),
    }
}

/// Whether each byte is a blank.
fn are_blank(text: &[u8]) -> bool
    ensures { result ≡ list_all byte.is_blank text.now }
{
    text.iter().all(|c| is_blank(*c))
}

/// How many blanks stand at the front.
fn blanks_len(text: &[u8]) -> usize
    ensures value { result ≡ prefix_len byte.is_blank text.now }
    ensures within { result ≤ length text.now }
{
    text.iter().take_while(|c| is_blank(**c)).count()
}

/// The text without the blanks at its front.
fn behind_blanks(text: &[u8]) -> &[u8]
    ensures { result.now ≡ spec.behind_blanks text.now }
{
    let (_, rest) = text.split_at(blanks_len(text));
    rest
}

/// The number that one to nineteen digits write; `None` of fewer or more, or where something else than blanks stands behind them.
fn unsigned_number(text: &[u8]) -> Option<u128>
    ensures is { result ≡ spec.unsigned_number text.now }
    ensures small { IfSome result (λ n. n < 10 ^ 19) }
{
    let (digits, rest) = text.split_at(digits_len(text));
    if digits.is_empty() || digits.len() > 19 || !are_blank(rest) {
        return None;
    }
    Some(value_of(digits))
}

/// The number that the digits write.
fn value_of(digits: &[u8]) -> u128
    requires digits { list_all is_ascii_digit digits.now ≡ true }
    requires short { length digits.now ≤ 19 }
    ensures value { result ≡ digits_value 10 digits.now }
    ensures small { result < 10 ^ 19 }
{
    match number_of_digits(digits) {
        None => 0,
        Some(n) => n,
    }
}

/// The number behind its `-`, where there is one.
fn signed_number(text: &[u8]) -> Option<i128>
    ensures is { result ≡ spec.signed_number text.now }
    ensures low { IfSome result (λ z. neg_ℤ (pos (10 ^ 19)) <ℤ z) }
    ensures high { IfSome result (λ z. z <ℤ pos (10 ^ 19)) }
{
    let (first, behind) = text.split_first()?;
    if *first == b'-' {
        Some(-(unsigned_number(behind)? as i128))
    } else {
        Some(unsigned_number(text)? as i128)
    }
}

/// Whether it is a number of the type; none is where there is no input.
fn is_wanted(ty: Option<Ty>, z: i128) -> bool
    requires { IsInput ty }
    ensures { result ≡ spec.is_wanted ty z }
{
    match ty {
        None => false,
        Some(ty) => is_in_range(ty, z),
    }
}
