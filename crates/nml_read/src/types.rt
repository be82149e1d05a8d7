//! Types, from symbols.
ghost use Rattle.std.specs.Prelude.{◌≡◌, ◌<◌, ◌≤◌, length, map, IfOk, codes};
ghost use Rattle.std.specs.Option.{option_map};
ghost use Rattle.readings.specs.Reading.{Found, looked_up};
ghost use Rattle.readings.specs.Readings.{◌>>>◌, sign};
ghost use Rattle.nml_grammar.specs.ReadingItems.{behind_kind, kinds};
ghost use Rattle.nml_read.specs.SeenWords.{seen_kind};
ghost use Rattle.readings.specs.Seen.{seen, Says};
ghost use Rattle.nml_grammar.specs.Words as spec;
ghost use Rattle.nml_grammar.specs.ReadingItems as items;

use nk_base::Text;
use nml_statement::size;
use nml_tree::{Name, Size, TypeExpr};
use readings::{Sign, Stop, mark};
use std::alloc::Global;

/// What a type begins with if it is no name.
#[derive(Clone, Copy)]
enum Kind {
    Truth,
    Card,
    Int,
    Fix,
    Float,
}

/// A type.
pub fn type_read<'t, 'a>(
    alloc: Global,
    signs: &'t [Sign<'a>],
) -> Result<(TypeExpr, &'t [Sign<'a>]), Stop>
    ensures says { Says (λ x. Found x.0 (map seen x.1.now)) result items.type_read (map seen signs.now) }
    ensures shorter { IfOk result (λ x. length x.1.now < length signs.now) }
{
    let Some((first, rest)) = signs.split_first() else {
        return Err(Stop::Stuck(signs.len()));
    };
    match *first {
        Sign::Fixed(at, text) => match kind_of(text) {
            Some(kind) => kinded(alloc, kind, at, rest),
            None => Err(Stop::Stuck(signs.len())),
        },
        Sign::Named(at, text) => {
            let text = Text::from_bytes(alloc, text)?;
            Ok((TypeExpr::Name(Name { at, text }), rest))
        }
        Sign::Number(_, _) => Err(Stop::Stuck(signs.len())),
        Sign::Quoted(_, _) => Err(Stop::Stuck(signs.len())),
    }
}

/// What begins with this keyword.
fn kind_of(text: &[u8]) -> Option<Kind>
    ensures { option_map seen_kind result ≡ looked_up kinds text.now }
{
    if text == b"bool".as_slice() {
        Some(Kind::Truth)
    } else if text == b"card".as_slice() {
        Some(Kind::Card)
    } else if text == b"int".as_slice() {
        Some(Kind::Int)
    } else if text == b"fix".as_slice() {
        Some(Kind::Fix)
    } else if text == b"float".as_slice() {
        Some(Kind::Float)
    } else {
        None
    }
}

/// A type behind its keyword, which stands at this place.
fn kinded<'t, 'a>(
    alloc: Global,
    kind: Kind,
    at: u32,
    signs: &'t [Sign<'a>],
) -> Result<(TypeExpr, &'t [Sign<'a>]), Stop>
    ensures says { Says (λ x. Found x.0 (map seen x.1.now)) result (behind_kind (seen_kind kind) at) (map seen signs.now) }
    ensures shorter { IfOk result (λ x. length x.1.now ≤ length signs.now) }
{
    match kind {
        Kind::Truth => Ok((TypeExpr::Bool(at), signs)),
        Kind::Card => {
            let (p, n, q, rest) = one_size(alloc, signs)?;
            Ok((TypeExpr::Card(at, p, n, q), rest))
        }
        Kind::Int => {
            let (p, n, q, rest) = one_size(alloc, signs)?;
            Ok((TypeExpr::Int(at, p, n, q), rest))
        }
        Kind::Fix => {
            let (p, n, c, m, q, rest) = two_sizes(alloc, signs)?;
            Ok((TypeExpr::Fix(at, p, n, c, m, q), rest))
        }
        Kind::Float => {
            let (p, n, c, m, q, rest) = two_sizes(alloc, signs)?;
            Ok((TypeExpr::Float(at, p, n, c, m, q), rest))
        }
    }
}

/// `( size )`.
fn one_size<'t, 'a>(
    alloc: Global,
    signs: &'t [Sign<'a>],
) -> Result<(u32, Size, u32, &'t [Sign<'a>]), Stop>
    ensures says { Says (λ x. Found (x.0, (x.1, x.2)) (map seen x.3.now)) result (sign (codes "(") >>> (spec.size >>> sign (codes ")"))) (map seen signs.now) }
    ensures shorter { IfOk result (λ x. length x.3.now < length signs.now) }
{
    let (opening, rest) = mark(b"(", signs)?;
    let (size, rest) = size(alloc, rest)?;
    let (closing, rest) = mark(b")", rest)?;
    Ok((opening, size, closing, rest))
}

/// `( size , size )`.
fn two_sizes<'t, 'a>(
    alloc: Global,
    signs: &'t [Sign<'a>],
) -> Result<(u32, Size, u32, Size, u32, &'t [Sign<'a>]), Stop>
    ensures says { Says (λ x. Found (x.0, (x.1, (x.2, (x.3, x.4)))) (map seen x.5.now)) result
        (sign (codes "(") >>> (spec.size >>> (sign (codes ",") >>> (spec.size >>> sign (codes ")"))))) (map seen signs.now) }
    ensures shorter { IfOk result (λ x. length x.5.now < length signs.now) }
{
    let (opening, rest) = mark(b"(", signs)?;
    let (first, rest) = size(alloc, rest)?;
    let (comma, rest) = mark(b",", rest)?;
    let (second, rest) = size(alloc, rest)?;
    let (closing, rest) = mark(b")", rest)?;
    Ok((opening, first, comma, second, closing, rest))
}
