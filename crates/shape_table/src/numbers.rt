//! The numbers that a word has in the fields of a shape.

ghost use Rattle.std.specs.Prelude.{◌≡◌, ◌≤◌, ◌<◌, ◌/◌, ◌%◌, ◌^◌, IfOk};
ghost use Rattle.nk_base.specs.Number.{IsTy};
ghost use Rattle.nml_shape.specs.Shown as spec;
ghost use Rattle.shape_table.specs.Meet.{AreTypes};

use nk_base::{Memory, wrap};
use nml_shape::FieldAt;
use std::alloc::Global;

/// The numbers that the word has in these fields, in their order.
///
/// Past the highest bit of the word a field has zeros. The one error is want of memory. The rule is this project's own.
pub fn numbers_of(alloc: Global, word: u128, fields: &[FieldAt]) -> Result<Vec<i128>, Memory>
    requires { AreTypes fields.now }
    ensures { IfOk result (λ numbers. numbers.items ≡ spec.numbers_in word fields.now) }
{
    let mut numbers = Vec::new(alloc);
    for i in 0..fields.len() {
        numbers.push(number_in(word, fields[i]))?;
    }
    Ok(numbers)
}

/// The number that the word has in the field.
fn number_in(word: u128, field: FieldAt) -> i128
    requires { IsTy field.ty }
    ensures { result ≡ spec.number_in word field }
{
    let bits = low_bits(word_from(word, field.low), field.ty.width());
    wrap(field.ty, i128::from(bits))
}

/// The bits of the word from this place on.
fn word_from(word: u128, low: u32) -> u128
    ensures { result ≡ word / 2 ^ low }
{
    if low < 128 { word >> low } else { 0 }
}

/// The lowest bits of the word, 64 at most.
fn low_bits(word: u128, width: u32) -> u64
    requires { width ≤ 64 }
    ensures { result ≡ word % 2 ^ width }
{
    (word % (1 << width)) as u64
}
