ghost use Rattle.std.specs.Prelude.{◌≡◌, ◌≤◌, ◌-◌, ◌+◌, ◌^◌, ◌≤ℤ◌, ◌<ℤ◌, pos};
ghost use Rattle.nk_base.specs.declared.number.Ty.TheVariants.{Int};
ghost use Rattle.nk_base.specs.Number.{IsWidth, InRange};
ghost use Rattle.nk_base.specs.Whole.{clamped, selected};

use crate::number::{low_bits, power_of_two};

/// The number of `Int(n)` nearest to `z`, for n from 1 to 64. It takes no memory. The rule is this project's own.
pub fn clamp(n: u32, z: i128) -> i128
    requires { IsWidth n }
    ensures exact { result ≡ clamped n z }
    ensures range { InRange (Int n) result }
{
    let bound = power_of_two(n - 1);
    if z < -bound {
        -bound
    } else if z >= bound {
        bound - 1
    } else {
        z
    }
}

/// The bits `hi` to `lo` of `z` in endless two's complement, as a number from 0: `floor(z / 2^lo)` modulo `2^(hi - lo + 1)`.
///
/// `hi` is 126 at most, `lo` no more than `hi`, and there are at most 64 bits from one to the other. It takes no memory. The rule is this
/// project's own.
pub fn select(z: i128, hi: u32, lo: u32) -> i128
    requires order { lo ≤ hi }
    requires top { hi ≤ 126 }
    requires few { hi - lo ≤ 63 }
    ensures exact { result ≡ selected z hi lo }
    ensures low { pos 0 ≤ℤ result }
    ensures high { result <ℤ pos (2 ^ (hi - lo + 1)) }
{
    low_bits(z.div_euclid(power_of_two(lo)), hi - lo + 1)
}
