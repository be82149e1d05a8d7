//! The shape that has the tokens of a line.

ghost use Rattle.std.specs.Prelude.{◌≡◌, ◌≤◌, ◌<◌, length, MatchOption, Some, slice_get};
ghost use Rattle.syntax_parse.specs.Search.{AreComparable, AreNumbers, HasMatch, HasNone, HasNoneAt, HasNoneOf};

use isg_graph::Isg;
use nml_shape::{Inst, Piece, Shape};
use syntax_match::matched;

/// The first shape that has the tokens, and the least word of it in whose fields their numbers stand; `None` where no shape has them.
///
/// The shapes that it compares are those whose tokens are as many and begin alike; all of them, where a `u32` can't count the tokens.
pub fn found(g: &Isg, tokens: &[Piece]) -> Option<Inst>
    ensures { MatchOption result (HasNone g.now.shapes tokens.now) (λ i. HasMatch g.now.shapes tokens.now i) }
{
    g.is_whole();
    let first = tokens.first()?;
    match u32::try_from(tokens.len()) {
        Ok(count) => found_among(g.shapes(), g.of_line(first, count), tokens),
        Err(_) => found_in_all(g.shapes(), tokens),
    }
}

/// The first of the shapes of these numbers that has the tokens.
fn found_among(shapes: &[Shape], numbers: &[u32], tokens: &[Piece]) -> Option<Inst>
    requires comparable { AreComparable shapes.now }
    requires numbers { AreNumbers shapes.now numbers.now }
    ensures { MatchOption result (HasNoneOf shapes.now numbers.now tokens.now) (λ i. HasMatch shapes.now tokens.now i) }
{
    for number in numbers {
        if let Some(i) = matched_at(shapes, *number, tokens) {
            return Some(i);
        }
    }
    None
}

/// The first of all shapes that has the tokens.
fn found_in_all(shapes: &[Shape], tokens: &[Piece]) -> Option<Inst>
    requires comparable { AreComparable shapes.now }
    requires few { length shapes.now ≤ 4096 }
    ensures { MatchOption result (HasNone shapes.now tokens.now) (λ i. HasMatch shapes.now tokens.now i) }
{
    for number in 0..shapes.len() as u32 {
        if let Some(i) = matched_at(shapes, number, tokens) {
            return Some(i);
        }
    }
    None
}

/// The shape of this number, where it has the tokens.
fn matched_at(shapes: &[Shape], shape: u32, tokens: &[Piece]) -> Option<Inst>
    requires comparable { AreComparable shapes.now }
    requires exists { shape < length shapes.now }
    ensures { MatchOption result (HasNoneAt shapes.now tokens.now shape) (λ i. HasMatch shapes.now tokens.now i) }
{
    match matched(shape_at(shapes, shape as usize), tokens) {
        None => None,
        Some(word) => Some(Inst { shape, word }),
    }
}

/// The shape of this number.
fn shape_at(shapes: &[Shape], n: usize) -> &Shape
    requires { n < length shapes.now }
    ensures { slice_get shapes.now n ≡ Some result.now }
{
    &shapes[n]
}
