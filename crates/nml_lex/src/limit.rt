//! Whether a token is within its limit.

ghost use Rattle.std.specs.Prelude.{◌≡◌, ◌≤◌, ◌^◌, nat_lt, IsTrue, Some, None, if◌then◌else◌};
ghost use Rattle.std.specs.Char.{is_digit};
ghost use Rattle.std.specs.List.{AllPass};
ghost use Rattle.std.specs.Str.Parse.{digits_value};
ghost use Rattle.nml_lex.specs.Form as spec;

use nk_base::byte::is_name_start;
use nk_base::{behind_prefix, number_up_to};

/// The most characters that a name has.
const NAME_LIMIT: usize = 64;

/// The most characters that a string has between its quotes.
const STRING_LIMIT: usize = 200;

/// Whether the token is within its limit.
pub fn is_within(text: &[u8]) -> bool
    requires { IsTrue (spec.is_token text.now) }
    ensures { result ≡ spec.is_within text.now }
{
    let Some(first) = text.first() else {
        return true;
    };
    if is_name_start(*first) {
        text.len() <= NAME_LIMIT
    } else if first.is_ascii_digit() {
        number_value(text).is_some()
    } else if *first == b'"' {
        text.len() <= STRING_LIMIT + 2
    } else {
        true
    }
}

/// What a number is worth, where that is below 2^64.
///
/// It is decimal digits, `0x` and hexadecimal digits of either case, or `0b` and binary digits, which is this project's own rule.
pub fn number_value(text: &[u8]) -> Option<u64>
    requires { IsTrue (spec.is_number text.now) }
    ensures { result ≡ (if nat_lt (spec.number_worth text.now) (2 ^ 64) then Some (spec.number_worth text.now) else None) }
{
    if let Some(digits) = behind_prefix(text, b"0x") {
        return value_of(digits, 16);
    }
    if let Some(digits) = behind_prefix(text, b"0b") {
        return value_of(digits, 2);
    }
    value_of(text, 10)
}

/// The number that the digits write, where that is below 2^64.
fn value_of(digits: &[u8], radix: u32) -> Option<u64>
    requires low { 2 ≤ radix }
    requires high { radix ≤ 16 }
    requires digits { AllPass (λ c. is_digit c radix) digits.now }
    ensures { result ≡ (if nat_lt (digits_value radix digits.now) (2 ^ 64) then Some (digits_value radix digits.now) else None) }
{
    match number_up_to(digits, radix, u128::from(u64::MAX)) {
        Some(value) => Some(value as u64),
        None => None,
    }
}
