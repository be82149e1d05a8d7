//! The word of a shape in which its tokens are those of a line.

ghost use Rattle.std.specs.Prelude.{◌≡◌, MatchOption};
ghost use Rattle.nml_shape.specs.Common.{IsSingle};
ghost use Rattle.syntax_match.specs.Bits.{joined};
ghost use Rattle.syntax_match.specs.Match.{AreTyped, IsFull, HasNoMatch, IsMatch};

use crate::bits::bits;
use nml_shape::{Piece, Shape};

/// The word of the instruction of the shape that has these tokens: its fields have the numbers that stand at their places, and its other bits
/// are those of the shape. `None` exactly where no numbers in range for the fields make the shape's tokens these.
///
/// A field among the tokens is a token of no instruction. Of a field that stands nowhere in the shape's tokens the number is 0. Each token is
/// looked at once. It takes no memory. The rule is this project's own.
pub fn matched(shape: &Shape, tokens: &[Piece]) -> Option<u128>
    requires single { IsSingle shape.now }
    requires full { IsFull shape.now }
    ensures { MatchOption result (HasNoMatch shape.now tokens.now) (λ w. IsMatch shape.now tokens.now w) }
{
    joined(shape, tokens)
}

/// The shape's fixed bits with those that the tokens give, where each can be the shape's token at its place.
fn joined(shape: &Shape, tokens: &[Piece]) -> Option<u128>
    requires { AreTyped shape.now.fields.items }
    ensures { result ≡ joined shape.now.fields.items shape.now.value shape.now.template.items tokens.now }
{
    let template = shape.template.as_slice();
    if template.len() != tokens.len() {
        return None;
    }
    let mut word = shape.value;
    for i in 0..template.len() {
        word |= bits(shape.fields.as_slice(), &template[i], &tokens[i])?;
    }
    Some(word)
}
