//! The bits that a token gives to the word of a shape.

ghost use Rattle.std.specs.Prelude.{◌≡◌, ◌≤◌, ◌<◌, ◌*◌, ◌^◌, ◌%◌};
ghost use Rattle.nk_base.specs.Number.{IsTy};
ghost use Rattle.syntax_match.specs.Bits as spec;
ghost use Rattle.syntax_match.specs.Match.{AreTyped};

use nk_base::low_bits;
use nk_range::is_in_range;
use nml_shape::{FieldAt, Piece};

/// The bits that the token gives where the shape's token is this piece: those of a field's number, and none of what is written. `None` where
/// the piece can't be this token.
pub fn bits(fields: &[FieldAt], piece: &Piece, token: &Piece) -> Option<u128>
    requires { AreTyped fields.now }
    ensures { result ≡ spec.bits fields.now piece.now token.now }
{
    match piece {
        Piece::Word(_) => zero_where(is_same(piece, token)),
        Piece::Number(_) => zero_where(is_same(piece, token)),
        Piece::Mark(_) => zero_where(is_same(piece, token)),
        Piece::Field(n) => match token {
            Piece::Word(_) => None,
            Piece::Number(z) => number_bits(fields, *n as usize, *z),
            Piece::Mark(_) => None,
            Piece::Field(_) => None,
        },
    }
}

/// No bits, where it is so.
fn zero_where(is: bool) -> Option<u128>
    ensures { result ≡ spec.zero_where is }
{
    if is { Some(0) } else { None }
}

/// Whether both are one word, one number or one mark.
fn is_same(piece: &Piece, token: &Piece) -> bool
    ensures { result ≡ spec.is_same piece.now token.now }
{
    match piece {
        Piece::Word(w) => match token {
            Piece::Word(v) => w == v,
            Piece::Number(_) => false,
            Piece::Mark(_) => false,
            Piece::Field(_) => false,
        },
        Piece::Number(z) => match token {
            Piece::Word(_) => false,
            Piece::Number(y) => z == y,
            Piece::Mark(_) => false,
            Piece::Field(_) => false,
        },
        Piece::Mark(c) => match token {
            Piece::Word(_) => false,
            Piece::Number(_) => false,
            Piece::Mark(d) => c == d,
            Piece::Field(_) => false,
        },
        Piece::Field(_) => false,
    }
}

/// The bits of the number at the place of the field of this number, where there is that field and the number is in its range.
fn number_bits(fields: &[FieldAt], n: usize, z: i128) -> Option<u128>
    requires { AreTyped fields.now }
    ensures { result ≡ spec.number_bits fields.now n z }
{
    let field = *fields.get(n)?;
    if is_in_range(field.ty, z) {
        Some(placed(field, z))
    } else {
        None
    }
}

/// The bits of the number at the place of the field; those past 128 bits are left out.
fn placed(field: FieldAt, z: i128) -> u128
    requires { IsTy field.ty }
    ensures { result ≡ spec.placed field z }
{
    shifted(low_bits(z, field.ty.width()) as u128, field.low)
}

/// The number, so many bits up.
fn shifted(bits: u128, low: u32) -> u128
    ensures { result ≡ bits * 2 ^ low % 2 ^ 128 }
{
    if low < 128 { bits << low } else { 0 }
}
