ghost use Rattle.std.specs.Prelude.{◌≡◌, ◌≤◌, ◌<◌, ◌^◌, ◌+◌, ◌++◌, nat_le, nat_lt, take, length, IfOk, Some, None, if◌then◌else◌};
ghost use Rattle.std.specs.Char.{is_ascii_digit, is_digit};
ghost use Rattle.std.specs.Fmt.{decimal, signed_decimal};
ghost use Rattle.std.specs.List.{AllPass};
ghost use Rattle.std.specs.Str.Parse.{digits_value};

use crate::{Memory, Text};
use std::alloc::Global;

/// The number in decimal, with `-` before a negative and no leading zero.
///
/// The rule is this project's own. The one error is want of memory.
pub fn dec(alloc: Global, z: i128) -> Result<Text, Memory>
    ensures { IfOk result (λ t. t ≡ signed_decimal z) }
{
    let text = z.to_string(alloc)?;
    Text::from_bytes(alloc, text.as_bytes())
}

/// Writes the text of [`dec`] at the front of `buf` and answers its length in bytes, 1 to 40.
///
/// It takes no memory. What stands behind the text in `buf` is left open.
pub fn dec_into(z: i128, buf: &mut [u8; 40]) -> usize
    ensures within { result ≤ 40 }
    ensures text { take result buf.new ≡ signed_decimal z }
{
    if z < 0 {
        buf[0] = b'-';
        write_digits(z.unsigned_abs(), buf, 1)
    } else {
        write_digits(z.unsigned_abs(), buf, 0)
    }
}

/// Writes the digits of `n` from the place `from` on; answers the place behind them.
#[tactic(auto, using(crate::proofs::Digits::digits_steps))]
fn write_digits(n: u128, buf: &mut [u8; 40], from: usize) -> usize
    requires from { from ≤ 1 }
    requires small { n < 10 ^ 39 }
    ensures len { result ≡ from + length (decimal n) }
    ensures text { take result buf.new ≡ take from buf.old ++ decimal n }
{
    if n < 10 {
        buf[from] = b'0' + n as u8;
        from + 1
    } else {
        let at = write_digits(n / 10, buf, from);
        buf[at] = b'0' + (n % 10) as u8;
        at + 1
    }
}

/// The number that the decimal digits write, where it is below 2^128; `None` where it isn't.
///
/// Zeros in front change nothing, and no digits write 0. It takes no memory.
pub fn number_of_digits(digits: &[u8]) -> Option<u128>
    requires { AllPass is_ascii_digit digits.now }
    ensures { result ≡ (if nat_lt (digits_value 10 digits.now) (2 ^ 128) then Some (digits_value 10 digits.now) else None) }
{
    number_up_to(digits, 10, u128::MAX)
}

/// The number that the digits write in this radix, from 2 to 16, where it is `most` at most; `None` where it isn't.
///
/// A digit above 9 is a letter of either case. Zeros in front change nothing, and no digits write 0. It takes no
/// memory.
#[tactic(auto, using(crate::proofs::DigitsValue::value_steps))]
pub fn number_up_to(digits: &[u8], radix: u32, most: u128) -> Option<u128>
    requires low { 2 ≤ radix }
    requires high { radix ≤ 16 }
    requires digits { AllPass (λ c. is_digit c radix) digits.now }
    ensures { result ≡ (if nat_le (digits_value radix digits.now) most then Some (digits_value radix digits.now) else None) }
{
    let mut value: u128 = 0;
    for digit in digits {
        let digit = char::from(*digit).to_digit(radix)?;
        value = value
            .checked_mul(u128::from(radix))?
            .checked_add(u128::from(digit))?;
        if value > most {
            return None;
        }
    }
    Some(value)
}
