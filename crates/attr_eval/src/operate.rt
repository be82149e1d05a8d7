//! What an operator makes of the values of its operands.

ghost use Rattle.std.specs.Int.{w128};
ghost use Rattle.std.specs.Prelude.{◌≡◌, ◌*ℤ◌, ◌-ℤ◌, ◌^◌, ◌-◌, ◌≤◌, ◌≤ℤ◌, ◌<ℤ◌, FitsSigned, IfSome, MatchBool, pos};
ghost use Rattle.attr_eval.specs.Operand.{MayHave};
ghost use Rattle.nk_base.specs.Number.{IsWidth, wrapped};
ghost use Rattle.nk_base.specs.Whole.{and_ℤ, clamped, floor_shr, not_ℤ, or_ℤ, selected, xor_ℤ};
ghost use Rattle.nk_base.specs.declared.number.Ty.TheVariants.{Card, Int};
ghost use Rattle.nml_tree.specs.Value as spec;
ghost use Rattle.nml_tree.specs.Written as written;

use nk_base::{Ty, clamp, power_of_two, select, wrap};
use nml_tree::{Bin, Un};

/// What an operator of one operand makes of its value.
///
/// Widths are from 1 to 64 bits, a run of bits has at most 64 and ends at bit 126 or below it, and the negative of the value is one that
/// 128 bits hold; what is answered otherwise is left open. It takes no memory. The rule is this project's own.
pub fn unary(op: Un, z: i128) -> i128
    ensures { MayHave op z → result ≡ spec.unary op z }
{
    match op {
        Un::Neg => told(z.checked_neg()),
        Un::Inv => inverse(z),
        Un::Not => truth(is_zero(z)),
        Un::Int(n) => signed(n, z),
        Un::Card(n) => natural(n, z),
        Un::Sat(n) => nearest(n, z),
        Un::Bits(hi, lo) => run_of(z, hi, lo),
    }
}

/// What an operator of two operands makes of their values: 1 for true, and 0 for false.
///
/// `&`, `|` and `^` are those of endless two's complement, shifts are by a power of two, and one to the right is rounded down. What is
/// answered where 128 bits don't hold the number is left open. It takes no memory. The rule is this project's own.
pub fn binary(op: Bin, x: i128, y: i128) -> i128
    ensures { FitsSigned w128 (spec.binary op x y) → result ≡ spec.binary op x y }
{
    match op {
        Bin::OrElse => truth(!is_zero(x) || !is_zero(y)),
        Bin::AndAlso => truth(!is_zero(x) && !is_zero(y)),
        Bin::Or => either(x, y),
        Bin::Xor => one_of(x, y),
        Bin::And => both(x, y),
        Bin::Eq => truth(is_same(x, y)),
        Bin::Ne => truth(!is_same(x, y)),
        Bin::Lt => truth(x < y),
        Bin::Le => truth(x <= y),
        Bin::Gt => truth(y < x),
        Bin::Ge => truth(y <= x),
        Bin::Shl => shift_left(x, y.unsigned_abs()),
        Bin::Shr => shift_right(x, y.unsigned_abs()),
        Bin::Add => told(x.checked_add(y)),
        Bin::Sub => told(x.checked_sub(y)),
        Bin::Mul => told(x.checked_mul(y)),
    }
}

/// The number, where there is one.
fn told(z: Option<i128>) -> i128
    ensures { IfSome z (λ n. result ≡ n) }
{
    match z {
        None => 0,
        Some(n) => n,
    }
}

fn is_width(n: u32) -> bool
    ensures { MatchBool result (IsWidth n) (IsWidth n → ⊥) }
{
    1 <= n && n <= 64
}

/// The number of `Int(n)` that is congruent to it.
fn signed(n: u32, z: i128) -> i128
    ensures { IsWidth n → result ≡ wrapped (Int n) z }
{
    if is_width(n) { wrap(Ty::Int(n), z) } else { 0 }
}

/// The number of `Card(n)` that is congruent to it.
fn natural(n: u32, z: i128) -> i128
    ensures { IsWidth n → result ≡ wrapped (Card n) z }
{
    if is_width(n) { wrap(Ty::Card(n), z) } else { 0 }
}

/// The number of `Int(n)` nearest to it.
fn nearest(n: u32, z: i128) -> i128
    ensures { IsWidth n → result ≡ clamped n z }
{
    if is_width(n) { clamp(n, z) } else { 0 }
}

/// Its bits from `lo` to `hi`.
fn run_of(z: i128, hi: u32, lo: u32) -> i128
    ensures { (lo ≤ hi) × (hi ≤ 126) × (hi - lo ≤ 63) → result ≡ selected z hi lo }
{
    if lo <= hi && hi <= 126 && hi - lo <= 63 {
        select(z, hi, lo)
    } else {
        0
    }
}

/// True is 1, false is 0. It takes no memory.
pub fn truth(b: bool) -> i128
    ensures { result ≡ written.truth b }
{
    if b { 1 } else { 0 }
}

/// Whether it is 0, which is false. It takes no memory.
pub fn is_zero(z: i128) -> bool
    ensures { result ≡ spec.is_zero z }
{
    z.unsigned_abs() == 0
}

fn is_same(x: i128, y: i128) -> bool
    ensures { result ≡ spec.is_zero (x -ℤ y) }
{
    x == y
}

fn inverse(z: i128) -> i128
    ensures { result ≡ not_ℤ z }
{
    !z
}

fn both(x: i128, y: i128) -> i128
    ensures { result ≡ and_ℤ x y }
{
    x & y
}

fn either(x: i128, y: i128) -> i128
    ensures { result ≡ or_ℤ x y }
{
    x | y
}

fn one_of(x: i128, y: i128) -> i128
    ensures { result ≡ xor_ℤ x y }
{
    x ^ y
}

fn is_negative(z: i128) -> bool
    ensures { MatchBool result (z <ℤ pos 0) (pos 0 ≤ℤ z) }
{
    z < 0
}

/// Times 2^n.
fn shift_left(x: i128, n: u128) -> i128
    ensures { FitsSigned w128 (x *ℤ pos (2 ^ n)) → result ≡ x *ℤ pos (2 ^ n) }
{
    if x == 0 {
        return 0;
    }
    if n > 126 {
        return i128::MIN;
    }
    told(x.checked_mul(power_of_two(n as u32)))
}

/// Divided by 2^n, rounded down.
fn shift_right(x: i128, n: u128) -> i128
    ensures { result ≡ floor_shr x n }
{
    if n > 126 {
        return if is_negative(x) { -1 } else { 0 };
    }
    x >> (n as u32)
}
