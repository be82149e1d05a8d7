//! A number in decimal.

ghost use Rattle.std.specs.Prelude.{◌≡◌, ◌++◌, OnOk};
ghost use Rattle.std.specs.Fmt.{signed_decimal};

use nk_base::{Memory, Text, dec_into};

/// Appends the number in decimal, with `-` before a negative and no leading zero.
pub fn push_decimal(z: i128, out: &mut Text) -> Result<(), Memory>
    ensures { OnOk result (out.new ≡ out.old ++ signed_decimal z) }
{
    let mut digits = [0; 40];
    let count = dec_into(z, &mut digits);
    out.push_bytes(&digits[..count])
}
