ghost use Rattle.std.specs.Prelude.{◌≡◌, ◌<◌, ◌++◌, OnOk, OnErr};
ghost use Rattle.std.specs.Char.{digit_char};
ghost use Rattle.nk_base.specs.Hexadecimal.{hexadecimal};
ghost use Rattle.nk_base.specs.Text.{GrewByFront};

use crate::{Memory, Text};

/// Appends the lowest `digits` hexadecimal digits of `n` to the text, the highest first, in lower case.
///
/// Where `n` has fewer digits, zeros stand in front; where it has more, the higher ones are left out. The rule is this
/// project's own. The one error is want of memory; then some front of the digits was appended.
pub fn push_hexadecimal(text: &mut Text, digits: u32, n: u128) -> Result<(), Memory>
    ensures ok { OnOk result (text.new ≡ text.old ++ hexadecimal digits n) }
    ensures err { OnErr result (GrewByFront text.old text.new (hexadecimal digits n)) }
{
    if digits > 0 {
        push_hexadecimal(text, digits - 1, n / 16)?;
        text.push(hexadecimal_digit((n % 16) as u8))?;
    }
    Ok(())
}

/// The character of a digit.
fn hexadecimal_digit(digit: u8) -> u8
    requires { digit < 16 }
    ensures { result ≡ digit_char digit }
{
    if digit < 10 {
        b'0' + digit
    } else {
        b'a' + (digit - 10)
    }
}
