//! Values, as numbers and as cells.

ghost use Rattle.std.specs.Prelude.{◌≡◌};
ghost use Rattle.ir_core.specs.Operator.{wrap};
ghost use Rattle.ir_run.specs.Value as spec;
ghost use Rattle.ir_run.specs.Shifts.{IsCellWidth};

use nk_base::{Ty, low_bits, wrap};

/// What a label's number is added to.
const LABELS: i64 = 1 << 32;

/// The number of `n` bits, with a sign, that is congruent to `z`.
pub fn wrapped(n: u32, z: i64) -> i64
    requires { IsCellWidth n }
    ensures { result ≡ wrap n z }
{
    wrap(Ty::Int(n), i128::from(z)) as i64
}

/// A label as a value.
pub fn label_value(label: u32) -> i64
    ensures { result ≡ spec.label_value label }
{
    LABELS + i64::from(label)
}

/// The label that a value is; a number is none.
pub fn label_of(z: i64) -> Option<u64>
    ensures { result ≡ spec.label_of z }
{
    if z < LABELS {
        None
    } else {
        Some((z - LABELS) as u64)
    }
}

/// A value as a number: a label counts as its number, wrapped.
pub fn number(n: u32, z: i64) -> i64
    requires { IsCellWidth n }
    ensures { result ≡ spec.number n z }
{
    if z < LABELS {
        z
    } else {
        wrapped(n, z - LABELS)
    }
}

/// The cell whose number a value is, modulo 2^n.
pub fn address(n: u32, z: i64) -> u64
    requires { IsCellWidth n }
    ensures { result ≡ spec.address n z }
{
    low_bits(i128::from(number(n, z)), n) as u64
}
