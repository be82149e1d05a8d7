ghost use Rattle.std.specs.Prelude.{◌≡◌, ◌≤◌, ◌<◌, ◌^◌, ◌-◌, ◌+◌, ◌≤ℤ◌, ◌<ℤ◌, ℤ, pos};
ghost use Rattle.nk_base.specs.Number.{wrapped, width_of, IsTy, InRange, CanWrap, IsCongruent};
ghost use Rattle.nk_base.specs.Number as spec;
ghost use Rattle.nk_base.specs.declared.number.Ty.{Ty};

/// What a number may be: `Bool` is 0 and 1, `Card(n)` is 0 to 2^n-1, `Int(n)` is -2^(n-1) to 2^(n-1)-1.
///
/// A type has 1 to 64 bits. The names and ranges are this project's own.
#[derive(Clone, Copy, Debug, PartialEq, Eq)]
pub enum Ty {
    Bool,
    Card(u32),
    Int(u32),
}

impl Ty {
    /// How many bits a number of the type has: 1 of a `Bool`, n of a `Card(n)` or an `Int(n)`. It takes no memory.
    pub fn width(self) -> u32
        ensures { result ≡ width_of self }
    {
        match self {
            Ty::Bool => 1,
            Ty::Card(n) => n,
            Ty::Int(n) => n,
        }
    }
}

/// So many bits, at most 128, as the number that they write.
#[derive(Clone, Copy, Debug, PartialEq, Eq)]
pub struct Bits {
    pub width: u32,
    pub value: u128,
    ghost narrow: { width ≤ 128 },
    ghost below: { value < 2 ^ width },
}

/// The number of the type's range that is congruent to `z` modulo 2^n.
///
/// A number that is to be a `Bool` has to be 0 or 1 already. It takes no memory. The rule is this project's own.
pub fn wrap(ty: Ty, z: i128) -> i128
    requires ty { IsTy ty }
    requires z { CanWrap ty z }
    ensures exact { result ≡ wrapped ty z }
    ensures range { InRange ty result }
{
    match ty {
        Ty::Bool => z,
        Ty::Card(n) => low_bits(z, n),
        Ty::Int(n) => {
            let low = low_bits(z, n);
            if low < power_of_two(n - 1) {
                low
            } else {
                low - power_of_two(n)
            }
        }
    }
}

/// The number that [`wrap`] is defined to answer differs from `z` by a multiple of 2^n.
pub fn wrapped_is_congruent()
    ensures { (ty : Ty) (z : ℤ) → IsCongruent (width_of ty) z (wrapped ty z) }
{}

/// 2^n, for n from 0 to 126: what an `i128` can hold. It takes no memory.
pub fn power_of_two(n: u32) -> i128
    requires { n ≤ 126 }
    ensures { result ≡ pos (2 ^ n) }
{
    1 << n
}

/// The lowest n bits of `z`, for n from 0 to 126: `z` modulo 2^n, from 0 to 2^n-1, also of a negative `z`.
///
/// It takes no memory.
pub fn low_bits(z: i128, n: u32) -> i128
    requires { n ≤ 126 }
    ensures exact { result ≡ spec.low_bits n z }
    ensures low { pos 0 ≤ℤ result }
    ensures high { result <ℤ pos (2 ^ n) }
{
    z.rem_euclid(power_of_two(n))
}
