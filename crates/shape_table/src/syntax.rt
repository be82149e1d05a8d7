//! The text of the least tokens that two shapes have in common.

ghost use Rattle.std.specs.Prelude.{◌≡◌, ◌++◌, map, IfOk, OnOk};
ghost use Rattle.std.specs.Fmt.{signed_decimal};
ghost use Rattle.nml_tree.specs.Outline.{with_numbers};
ghost use Rattle.nml_tree.specs.Same as spec;
ghost use Rattle.nml_tree.specs.Value as value;
ghost use Rattle.nml_shape.specs.Common.{filled, IsLeastText, IsSingle};
ghost use Rattle.nml_shape.specs.Shown.{token_of};
ghost use Rattle.shape_table.specs.Meet.{HasTypes};

use crate::same::agreement;
use nk_base::{Memory, Text, dec};
use nml_shape::{Piece, Shape};
use std::alloc::Global;

/// The tokens that two shapes have in common, with the least number in each field, and with one blank between two tokens; or that there
/// are none.
///
/// The one error is want of memory. The rule is this project's own.
pub fn overlap_syntax(alloc: Global, a: &Shape, b: &Shape) -> Result<Option<Text>, Memory>
    requires first { IsSingle a.now }
    requires second { IsSingle b.now }
    requires first_types { HasTypes a.now }
    requires second_types { HasTypes b.now }
    ensures { IfOk result (λ text. IsLeastText a.now b.now text) }
{
    match agreement(alloc, a, b)? {
        None => Ok(None),
        Some(found) => {
            let text = tokens_text(alloc, a, found.first.as_slice())?;
            Ok(Some(text))
        }
    }
}

/// The tokens of the shape with these numbers in its fields, with one blank between two; a field beyond the numbers has 0.
///
/// The one error is want of memory. The rule is this project's own.
pub fn tokens_text(alloc: Global, shape: &Shape, numbers: &[i128]) -> Result<Text, Memory>
    ensures { IfOk result (λ text. text ≡ spec.tokens_text (filled shape.now numbers.now)) }
{
    let mut text = Text::new(alloc);
    let Some((first, more)) = shape.template.as_slice().split_first() else {
        return Ok(text);
    };
    push_token(alloc, &mut text, first, numbers)?;
    for piece in more {
        text.push(b' ')?;
        push_token(alloc, &mut text, piece, numbers)?;
    }
    Ok(text)
}

/// Appends the token with these numbers in the fields.
fn push_token(alloc: Global, text: &mut Text, piece: &Piece, numbers: &[i128]) -> Result<(), Memory>
    ensures { OnOk result (text.new ≡ text.old ++ spec.token_text (with_numbers numbers.now (token_of piece.now))) }
{
    match piece {
        Piece::Word(word) => text.push_bytes(word.as_bytes()),
        Piece::Number(z) => push_number(alloc, text, *z),
        Piece::Mark(c) => text.push(*c),
        Piece::Field(n) => push_number(alloc, text, number_at(numbers, *n as usize)),
    }
}

/// Appends the number in decimal.
fn push_number(alloc: Global, text: &mut Text, z: i128) -> Result<(), Memory>
    ensures { OnOk result (text.new ≡ text.old ++ signed_decimal z) }
{
    let decimal = dec(alloc, z)?;
    text.push_bytes(decimal.as_bytes())
}

/// The number at the place, or 0.
fn number_at(numbers: &[i128], n: usize) -> i128
    ensures { result ≡ value.number_at numbers.now n }
{
    match numbers.get(n) {
        None => 0,
        Some(z) => *z,
    }
}
