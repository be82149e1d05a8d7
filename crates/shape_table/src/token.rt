//! Whether two shapes have a list of tokens in common, place by place.

ghost use Rattle.std.specs.Prelude.{◌≡◌};
ghost use Rattle.nk_base.specs.Number.{IsTy};
ghost use Rattle.shape_table.specs.Meet as spec;
ghost use Rattle.shape_table.specs.Meet.{AreTypes, HasTypes};

use nk_base::{Ty, power_of_two};
use nml_shape::{FieldAt, Piece, Shape};

/// The numbers that may stand at a place, from the lowest to the highest.
#[derive(Clone, Copy)]
pub struct Span {
    pub low: i128,
    pub high: i128,
}

/// Whether two shapes have a list of tokens in common.
pub fn tokens_meet(a: &Shape, b: &Shape) -> bool
    requires a { HasTypes a.now }
    requires b { HasTypes b.now }
    ensures { result ≡ spec.tokens_meet a.now b.now }
{
    let (ps, qs) = (a.template.as_slice(), b.template.as_slice());
    if ps.len() != qs.len() {
        return false;
    }
    for i in 0..ps.len() {
        if !pieces_meet(a, b, &ps[i], &qs[i]) {
            return false;
        }
    }
    true
}

/// Whether a token of the first shape and one of the second have a token in common.
fn pieces_meet(a: &Shape, b: &Shape, p: &Piece, q: &Piece) -> bool
    requires a { HasTypes a.now }
    requires b { HasTypes b.now }
    ensures { result ≡ spec.pieces_meet a.now.fields.items b.now.fields.items p.now q.now }
{
    match span_of(a.fields.as_slice(), p) {
        None => match span_of(b.fields.as_slice(), q) {
            None => same_written(p, q),
            Some(_) => false,
        },
        Some(x) => match span_of(b.fields.as_slice(), q) {
            None => false,
            Some(y) => x.low <= y.high && y.low <= x.high,
        },
    }
}

/// The numbers that may stand for the token; none for a word or a mark.
pub fn span_of(fields: &[FieldAt], piece: &Piece) -> Option<Span>
    requires { AreTypes fields.now }
    ensures { result ≡ spec.span fields.now piece.now }
{
    match piece {
        Piece::Word(_) => None,
        Piece::Number(z) => Some(Span { low: *z, high: *z }),
        Piece::Mark(_) => None,
        Piece::Field(n) => match fields.get(*n as usize) {
            None => None,
            Some(field) => Some(range(field.ty)),
        },
    }
}

/// The numbers of the type.
pub fn range(ty: Ty) -> Span
    requires { IsTy ty }
    ensures { result ≡ spec.range ty }
{
    match ty {
        Ty::Bool => Span { low: 0, high: 1 },
        Ty::Card(n) => Span {
            low: 0,
            high: power_of_two(n) - 1,
        },
        Ty::Int(n) => Span {
            low: -power_of_two(n - 1),
            high: power_of_two(n - 1) - 1,
        },
    }
}

/// Whether both are one word or one mark.
fn same_written(p: &Piece, q: &Piece) -> bool
    ensures { result ≡ spec.same_written p.now q.now }
{
    match p {
        Piece::Word(w) => match q {
            Piece::Word(v) => w == v,
            Piece::Number(_) => false,
            Piece::Mark(_) => false,
            Piece::Field(_) => false,
        },
        Piece::Number(_) => false,
        Piece::Mark(c) => match q {
            Piece::Word(_) => false,
            Piece::Number(_) => false,
            Piece::Mark(d) => c == d,
            Piece::Field(_) => false,
        },
        Piece::Field(_) => false,
    }
}
