//! Numbers of n bits, and labels as values.

ghost use Rattle.std.specs.Prelude.{◌≡◌, ◌≤◌};
ghost use Rattle.ir_core.specs.Operator.{wrap};
ghost use Rattle.ir_run.specs.Value as value;

use nk_base::{Ty, wrap};

/// What a label's number is added to.
const LABELS: i64 = 1 << 32;

/// The number of `n` bits, with a sign, that is congruent to `z`.
pub fn wrapped(z: i64, n: u32) -> i64
    requires least { 16 ≤ n }
    requires most { n ≤ 32 }
    ensures { result ≡ wrap n z }
{
    wrap(Ty::Int(n), i128::from(z)) as i64
}

/// A label as a value: 2^32 and its number.
pub fn label_value(label: u32) -> i64
    ensures { result ≡ value.label_value label }
{
    LABELS + i64::from(label)
}
