//! Expressions between marks.
ghost use Rattle.std.specs.Prelude.{◌≡◌, ◌≤◌, ◌<◌, length, map, IfOk, MatchResult, codes, Some, None};
ghost use Rattle.c_tree.specs.Formula.{formula};
ghost use Rattle.c_tree.specs.Formula as plain;
ghost use Rattle.std.specs.Option.{option_map};
ghost use Rattle.readings.specs.Reading.{Found};
ghost use Rattle.readings.specs.Readings.{◌>>>◌, sign};
ghost use Rattle.readings.specs.Seen.{seen, Says};
ghost use Rattle.c_grammar.specs.Until.{ended};
ghost use Rattle.c_grammar.specs.Declarations.{expression};
ghost use Rattle.c_grammar.specs.ReadingStatements as spec;

use c_expression::whole;
use c_tree::Expr;
use readings::{Sign, Stop, behind, mark};
use std::alloc::Global;

/// An expression that is at most so deep, and this keyword or mark behind it.
pub fn closed<'t, 'a>(
    alloc: Global,
    room: usize,
    text: &[u8],
    signs: &'t [Sign<'a>],
) -> Result<(Expr, u32, &'t [Sign<'a>]), Stop>
    requires some { 1 ≤ room }
    requires few { room ≤ 200 }
    ensures says { Says (λ x. Found (formula x.0, x.1) (map seen x.2.now)) result (expression room >>> sign text.now) (map seen signs.now) }
    ensures shorter { IfOk result (λ x. length x.2.now < length signs.now) }
{
    let (e, rest) = whole(alloc, room, signs)?;
    let (e, (at, rest)) = kept(e, mark(text, rest))?;
    Ok((e, at, rest))
}

/// `( e )`.
pub fn condition<'t, 'a>(
    alloc: Global,
    room: usize,
    signs: &'t [Sign<'a>],
) -> Result<(u32, Expr, u32, &'t [Sign<'a>]), Stop>
    requires some { 1 ≤ room }
    requires few { room ≤ 200 }
    ensures says { Says (λ x. Found (x.0, (formula x.1, x.2)) (map seen x.3.now)) result (spec.condition room) (map seen signs.now) }
    ensures shorter { IfOk result (λ x. length x.3.now < length signs.now) }
{
    let (opening, rest) = mark(b"(", signs)?;
    let (e, closing, rest) = closed(alloc, room, b")", rest)?;
    Ok((opening, e, closing, rest))
}

/// `;`, or `e ;`.
pub fn ended_value<'t, 'a>(
    alloc: Global,
    room: usize,
    signs: &'t [Sign<'a>],
) -> Result<(Option<Expr>, u32, &'t [Sign<'a>]), Stop>
    requires some { 1 ≤ room }
    requires few { room ≤ 200 }
    ensures says { Says (λ x. Found (option_map formula x.0, x.1) (map seen x.2.now)) result (ended (codes ";") (expression room)) (map seen signs.now) }
    ensures shorter { IfOk result (λ x. length x.2.now < length signs.now) }
{
    if let Some((at, rest)) = behind(b";", signs) {
        return Ok((None, at, rest));
    }
    let (e, at, rest) = closed(alloc, room, b";", signs)?;
    Ok((Some(e), at, rest))
}

/// What was read before, with what is read behind it.
pub fn kept<T: Drop, U>(before: T, behind: Result<U, Stop>) -> Result<(T, U), Stop>
    ensures { MatchResult result (λ x. (x.0 ≡ before) × (behind ≡ Ok x.1)) (λ stop. behind ≡ Err stop) }
{
    match behind {
        Ok(found) => Ok((before, found)),
        Err(stop) => Err(stop),
    }
}
