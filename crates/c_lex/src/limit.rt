//! Whether a token is within its limit, and what a number is worth.

ghost use Rattle.std.specs.Prelude.{◌≡◌, ◌^◌, nat_lt, IsTrue, Some, None, if◌then◌else◌};
ghost use Rattle.c_lex.specs.Form as spec;

use nk_base::byte::is_name_start;

/// The most characters that a word has.
const NAME_LIMIT: usize = 64;

/// Whether the token is within its limit.
pub fn is_within(text: &[u8]) -> bool
    requires { IsTrue (spec.is_token text.now) }
    ensures { result ≡ spec.is_within text.now }
{
    let Some(first) = text.first() else {
        return true;
    };
    if is_name_start(*first) {
        text.len() <= NAME_LIMIT
    } else if first.is_ascii_digit() {
        number_value(text).is_some()
    } else {
        true
    }
}

/// What a number is worth, where that is below 2^64.
///
/// It is decimal digits without a leading zero, `0` alone, or `0x` and hexadecimal digits of either case, which is this project's own rule.
pub fn number_value(text: &[u8]) -> Option<u64>
    requires { IsTrue (spec.is_number text.now) }
    ensures { result ≡ (if nat_lt (spec.number_worth text.now) (2 ^ 64) then Some (spec.number_worth text.now) else None) }
{
    nml_lex::number_value(text)
}
