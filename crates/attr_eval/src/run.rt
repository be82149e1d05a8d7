//! Bits that are written one behind another.

ghost use Rattle.std.specs.Prelude.{◌≡◌, ◌<◌, ◌≤◌, ◌^◌, Bool, List, [], length, MatchBool};
ghost use Rattle.attr_eval.specs.Run as spec;
ghost use Rattle.nk_base.specs.Number.{width_of};
ghost use Rattle.nml_tree.specs.Attribute.{bits_below, bits_of, number_of};

use nk_base::{Bits, Ty, low_bits};

/// So many bits, and the number that they write.
#[derive(Clone, Copy, Drop)]
pub struct Run {
    pub width: u32,
    pub value: u128,
}

impl Run {
    /// The bits with one more behind them.
    pub fn push(self, bit: bool) -> Run
        ensures { result ≡ spec.pushed_one self bit }
    {
        let low = if bit { 1 } else { 0 };
        Run {
            width: self.width.saturating_add(1),
            value: self.value.wrapping_mul(2).wrapping_add(low),
        }
    }

    /// The bits, of which there are at most 64.
    pub fn bits(self) -> Bits
        ensures { (xs : List Bool) → length xs ≤ 64 → self ≡ spec.pushed (record { width = 0; value = 0 }) xs → (result.width ≡ length xs) × (result.value ≡ number_of xs) }
    {
        if self.width > 64 || !is_below(self.value, self.width) {
            return Bits { width: 0, value: 0 };
        }
        Bits {
            width: self.width,
            value: self.value,
        }
    }
}

/// Whether the number has no more bits than this.
fn is_below(value: u128, width: u32) -> bool
    requires { width < 128 }
    ensures { MatchBool result (value < 2 ^ width) (2 ^ width ≤ value) }
{
    value < 1 << width
}

/// The bits of a number of the type, the highest first.
pub fn push_number(out: Run, ty: Ty, z: i128) -> Run
    ensures { width_of ty ≤ 64 → result ≡ spec.pushed out (bits_of ty z) }
{
    let width = ty.width();
    if width > 64 {
        return out;
    }
    push_low(out, width, low_bits(z, width).unsigned_abs())
}

/// The lowest `width` bits of a number, the highest first.
fn push_low(out: Run, width: u32, z: u128) -> Run
    requires { width ≤ 64 }
    ensures { result ≡ spec.pushed out (bits_below width z) }
{
    let mut out = out;
    let mut rest = width;
    while rest > 0 {
        rest -= 1;
        out = out.push((z >> rest) % 2 == 1);
    }
    out
}
