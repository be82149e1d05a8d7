//! What two shapes may have in common, and labels that shapes with something in common share.

ghost use Rattle.std.specs.Prelude.{◌≡◌, ◌<◌, length, slice_get, Some, None};
ghost use Rattle.shape_table.specs.Label as spec;
ghost use Rattle.shape_table.specs.Label.{IsReady};

use crate::image::words_meet;
use crate::token::tokens_meet;
use nml_shape::{Piece, Shape};

/// What two shapes may have in common: a word, or a list of tokens.
#[derive(Clone, Copy)]
pub enum Common {
    Image,
    Syntax,
}

/// A part of it: the fixed bits, or the number at a place.
#[derive(Clone, Copy)]
pub enum Part {
    Bits,
    Place(usize),
}

impl Common {
    /// Whether the two shapes have it in common.
    pub fn meet(self, a: &Shape, b: &Shape) -> bool
        requires a { IsReady self a.now }
        requires b { IsReady self b.now }
        ensures { result ≡ spec.meets self a.now b.now }
    {
        match self {
            Common::Image => words_meet(a, b),
            Common::Syntax => tokens_meet(a, b),
        }
    }

    /// A label that both of two shapes with something in common have, from the words and marks of the tokens; 0 for words of bits.
    pub fn first_label(self, shape: &Shape) -> u128
        ensures { result ≡ spec.first_label self shape.now }
    {
        match self {
            Common::Image => 0,
            Common::Syntax => classed(shape.template.as_slice()),
        }
    }
}

impl Part {
    /// Which bits of the part are fixed in the shape: of a place all or none.
    pub fn fixed_in(self, shape: &Shape) -> u128
        ensures { result ≡ spec.fixed_in self shape.now }
    {
        match self {
            Part::Bits => shape.mask,
            Part::Place(n) => match size_at(shape, n) {
                None => 0,
                Some(_) => u128::MAX,
            },
        }
    }

    /// A label that tells apart more shapes than `label`, by what is fixed in all shapes of that label.
    pub fn told(self, shape: &Shape, fixed: u128, label: u128) -> u128
        ensures { result ≡ spec.told self shape.now fixed label }
    {
        match self {
            Part::Bits => shape.value & fixed,
            Part::Place(n) => {
                if fixed == 0 {
                    label
                } else {
                    mixed(label, size_at(shape, n).unwrap_or(0))
                }
            }
        }
    }
}

/// The number that is written at this place, without its sign.
fn size_at(shape: &Shape, n: usize) -> Option<u128>
    ensures { result ≡ spec.size_at n shape.now }
{
    match shape.template.get(n) {
        None => None,
        Some(piece) => size(piece),
    }
}

/// The number that the token is, without its sign.
fn size(piece: &Piece) -> Option<u128>
    ensures { result ≡ spec.size piece.now }
{
    match piece {
        Piece::Word(_) => None,
        Piece::Number(z) => Some(z.unsigned_abs()),
        Piece::Mark(_) => None,
        Piece::Field(_) => None,
    }
}

/// A label from the words and marks of these tokens, and the places where numbers stand.
fn classed(pieces: &[Piece]) -> u128
    ensures { result ≡ spec.classed (length pieces.now) pieces.now }
{
    let mut label = pieces.len() as u128;
    for i in 0..pieces.len() {
        label = mixed(label, class(&pieces[i]));
    }
    label
}

/// A number for a word or a mark; one and the same for any number.
fn class(piece: &Piece) -> u128
    ensures { result ≡ spec.class piece.now }
{
    match piece {
        Piece::Word(word) => mixed_all(word.as_bytes()),
        Piece::Number(_) => 256,
        Piece::Mark(c) => u128::from(*c),
        Piece::Field(_) => 256,
    }
}

/// A number for a word.
fn mixed_all(word: &[u8]) -> u128
    ensures { result ≡ spec.mixed_all 0 word.now }
{
    let mut label = 0;
    for c in word {
        label = mixed(label, u128::from(*c));
    }
    label
}

/// A label and a number more, mixed to a label; which of them differ matters for speed alone.
fn mixed(label: u128, n: u128) -> u128
    ensures { result ≡ spec.mixed label n }
{
    label
        .wrapping_mul(47026247687942121848144207491837523525)
        .wrapping_add(n)
}
