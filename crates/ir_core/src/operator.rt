//! What operators do to numbers of so many bits.

ghost use Rattle.std.specs.Prelude.{◌≡◌, ◌<◌, ◌*ℤ◌};
ghost use Rattle.nk_base.specs.Number.{IsWidth};
ghost use Rattle.ir_core.specs.Operator as spec;

use crate::relation::Rel;
use nk_base::{Ty, wrap};

/// An operator of one operand: `-`, `~`.
///
/// The names are this project's own.
#[derive(Clone, Copy)]
pub enum Prefix {
    Neg,
    Not,
}

/// A shift: `<<`, `>>`.
///
/// The names are this project's own.
#[derive(Clone, Copy)]
pub enum Shift {
    Shl,
    Shr,
}

/// An operator of two operands: `+`, `-`, `*`, `&`, `|`, `^`.
///
/// The names are this project's own.
#[derive(Clone, Copy)]
pub enum Arith {
    Add,
    Sub,
    Mul,
    And,
    Or,
    Xor,
}

/// The number of `n` bits, with a sign, that is congruent to `z`.
fn wrapped(n: u32, z: i128) -> i64
    requires { IsWidth n }
    ensures { result ≡ spec.wrap n z }
{
    wrap(Ty::Int(n), z) as i64
}

/// What `-` or `~` does to a number of `n` bits: `-` wraps. It takes no memory. The rule is ISO C's, where it has one.
pub fn prefixed(n: u32, op: Prefix, z: i64) -> i64
    requires { IsWidth n }
    ensures { result ≡ spec.prefixed n op z }
{
    match op {
        Prefix::Neg => wrapped(n, -i128::from(z)),
        Prefix::Not => !z,
    }
}

/// What a shift by `k` does to a number of `n` bits: `<<` wraps, `>>` divides by a power of two and rounds down. It takes
/// no memory. The rule is ISO C's, where it has one.
pub fn shifted(n: u32, op: Shift, z: i64, k: u32) -> i64
    requires width { IsWidth n }
    requires amount { k < 63 }
    ensures { result ≡ spec.shifted n op z k }
{
    match op {
        Shift::Shl => wrapped(n, product(z, power(k))),
        Shift::Shr => z >> k,
    }
}

/// 2 to this power.
fn power(k: u32) -> i64
    requires { k < 63 }
    ensures { result ≡ spec.power k }
{
    1 << k
}

/// The product, which fits.
fn product(x: i64, y: i64) -> i128
    ensures { result ≡ x *ℤ y }
{
    i128::from(x) * i128::from(y)
}

/// What an operator does to two numbers of `n` bits: `+`, `-` and `*` wrap. It takes no memory. The rule is ISO C's, where
/// it has one.
pub fn arithmetic(n: u32, op: Arith, x: i64, y: i64) -> i64
    requires { IsWidth n }
    ensures { result ≡ spec.arithmetic n op x y }
{
    match op {
        Arith::Add => wrapped(n, i128::from(x) + i128::from(y)),
        Arith::Sub => wrapped(n, i128::from(x) - i128::from(y)),
        Arith::Mul => wrapped(n, product(x, y)),
        Arith::And => x & y,
        Arith::Or => x | y,
        Arith::Xor => x ^ y,
    }
}

/// Whether two numbers are so related. It takes no memory.
pub fn holds(r: Rel, x: i64, y: i64) -> bool
    ensures { result ≡ spec.holds r x y }
{
    match r {
        Rel::Eq => x <= y && y <= x,
        Rel::Ne => !(x <= y && y <= x),
        Rel::Lt => x < y,
        Rel::Le => x <= y,
        Rel::Gt => y < x,
        Rel::Ge => y <= x,
    }
}
