//! How many bits numbers have, and which numbers a program may have.

ghost use Rattle.std.specs.Prelude.{◌≡◌, ◌≤◌, ◌-◌, ◌^◌, ◌&&◌, nat_lt, int_le, int_lt, neg_ℤ, pos};
ghost use Rattle.c_tree.specs.Resolve.{initial};

use c_tree::{Number, SNum};

/// How many bits numbers have, 16 to 32, and the least number that is too great for them.
///
/// The form is this project's own.
#[derive(Clone, Copy)]
pub struct Width {
    pub bits: u32,
    pub half: u64,
    ghost low: { 16 ≤ bits },
    ghost high: { bits ≤ 32 },
    ghost is: { half ≡ 2 ^ (bits - 1) },
}

/// Numbers of so many bits. It takes no memory.
pub fn width_of(bits: u32) -> Width
    requires low { 16 ≤ bits }
    requires high { bits ≤ 32 }
    ensures { result.bits ≡ bits }
{
    let half = half_of(bits - 1);
    Width { bits, half }
}

/// 2 to this power.
fn half_of(k: u32) -> u64
    requires { k ≤ 31 }
    ensures { result ≡ 2 ^ k }
{
    1 << k
}

/// Whether an expression may have the number.
pub fn is_literal(width: Width, number: Number) -> bool
    ensures { result ≡ nat_lt number.value (2 ^ (width.bits - 1)) }
{
    number.value < width.half
}

/// The initial value as a number.
fn value_of(z: SNum) -> i128
    ensures { result ≡ initial z }
{
    match z.minus {
        None => i128::from(z.number.value),
        Some(_) => -i128::from(z.number.value),
    }
}

/// Whether a variable may begin with the value.
pub fn is_initial(width: Width, z: SNum) -> bool
    ensures { result ≡ (int_le (neg_ℤ (pos (2 ^ (width.bits - 1)))) (initial z) && int_lt (initial z) (pos (2 ^ (width.bits - 1)))) }
{
    let half = i128::from(width.half);
    let value = value_of(z);
    -half <= value && value < half
}
