//! The least numbers with which two shapes have one list of tokens.

ghost use Rattle.std.specs.Prelude.{◌≡◌, IfOk, MatchOption, slice_set};
ghost use Rattle.nml_shape.specs.Common.{AreLeastSame, HaveNoTokens, IsSingle};
ghost use Rattle.shape_table.specs.Least as spec;
ghost use Rattle.shape_table.specs.Meet.{AreTypes, HasTypes};

use crate::agreed::Agreement;
use crate::token::{range, span_of, tokens_meet};
use nk_base::Memory;
use nml_shape::{FieldAt, Piece, Shape};
use std::alloc::Global;

/// The least numbers with which the two shapes have one list of tokens, or that there are none.
///
/// A field that stands in no token has the lowest number of its type. The one error is want of memory. The rule is this project's own.
pub fn agreement(alloc: Global, a: &Shape, b: &Shape) -> Result<Option<Agreement>, Memory>
    requires first { IsSingle a.now }
    requires second { IsSingle b.now }
    requires first_types { HasTypes a.now }
    requires second_types { HasTypes b.now }
    ensures { IfOk result (λ found. MatchOption found (HaveNoTokens a.now b.now) (λ g. AreLeastSame a.now b.now g.first.items g.second.items)) }
{
    if !tokens_meet(a, b) {
        return Ok(None);
    }
    let first = least_numbers(alloc, a, b)?;
    let second = least_numbers(alloc, b, a)?;
    Ok(Some(Agreement { first, second }))
}

/// For each field of the first shape the least number with which each token can be that of the second.
fn least_numbers(alloc: Global, a: &Shape, b: &Shape) -> Result<Vec<i128>, Memory>
    requires first { HasTypes a.now }
    requires second { HasTypes b.now }
    ensures { IfOk result (λ numbers. numbers.items ≡ spec.least_numbers a.now b.now) }
{
    let mut numbers = lows(alloc, a.fields.as_slice())?;
    let (ps, qs) = (a.template.as_slice(), b.template.as_slice());
    for i in 0..ps.len().min(qs.len()) {
        let number = least(a, b, &ps[i], &qs[i]);
        place(numbers.as_mut_slice(), &ps[i], number);
    }
    Ok(numbers)
}

/// The lowest number of each field.
fn lows(alloc: Global, fields: &[FieldAt]) -> Result<Vec<i128>, Memory>
    requires { AreTypes fields.now }
    ensures { IfOk result (λ numbers. numbers.items ≡ spec.lows fields.now) }
{
    let mut numbers = Vec::new(alloc);
    for i in 0..fields.len() {
        numbers.push(range(fields[i].ty).low)?;
    }
    Ok(numbers)
}

/// The least number that two tokens have in common, if they have numbers in common at all.
fn least(a: &Shape, b: &Shape, p: &Piece, q: &Piece) -> Option<i128>
    requires first { HasTypes a.now }
    requires second { HasTypes b.now }
    ensures { result ≡ spec.least a.now.fields.items b.now.fields.items p.now q.now }
{
    let x = span_of(a.fields.as_slice(), p)?;
    let y = span_of(b.fields.as_slice(), q)?;
    Some(if x.low < y.low { y.low } else { x.low })
}

/// Puts the number in the field that the token is.
fn place(numbers: &mut [i128], piece: &Piece, number: Option<i128>)
    ensures { numbers.new ≡ spec.placed piece.now number numbers.old }
{
    match piece {
        Piece::Word(_) => {}
        Piece::Number(_) => {}
        Piece::Mark(_) => {}
        Piece::Field(n) => {
            if let Some(number) = number {
                put(numbers, *n as usize, number);
            }
        }
    }
}

/// Puts the number at the place, if there is that place.
fn put(numbers: &mut [i128], n: usize, number: i128)
    ensures { numbers.new ≡ slice_set numbers.old n number }
{
    if n < numbers.len() {
        numbers[n] = number;
    }
}
