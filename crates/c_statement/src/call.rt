//! Calls that are statements.
ghost use Rattle.std.specs.Prelude.{◌≡◌, ◌≤◌, ◌<◌, length, map, IfOk, codes};
ghost use Rattle.c_tree.specs.Formula.{formula};
ghost use Rattle.c_tree.specs.Statement.{act, Invoke};
ghost use Rattle.readings.specs.Reading.{Found};
ghost use Rattle.readings.specs.Readings.{◌>>>◌, made, sign};
ghost use Rattle.readings.specs.Seen.{seen, Says};
ghost use Rattle.c_grammar.specs.Until.{until};
ghost use Rattle.c_grammar.specs.Declarations.{expression};
ghost use Rattle.c_grammar.specs.Calls.{called_within, with_arguments};
ghost use Rattle.c_expression.specs.Seen.{formulas};

use crate::closed::kept;
use c_expression::whole;
use c_tree::{Expr, Name, Simple};
use readings::{Sign, Stop, behind, mark};
use sqlite_items::Items;
use std::alloc::Global;

/// What stands behind `NAME (`: a closing parenthesis, or arguments that are at most so deep, and one.
pub fn call<'t, 'a>(
    alloc: Global,
    room: usize,
    name: Name,
    opening: u32,
    signs: &'t [Sign<'a>],
) -> Result<(Simple, &'t [Sign<'a>]), Stop>
    requires few { room ≤ 200 }
    ensures says { Says (λ x. Found (act x.0) (map seen x.1.now)) result (made Invoke (called_within room name opening)) (map seen signs.now) }
    ensures shorter { IfOk result (λ x. length x.1.now < length signs.now) }
{
    if let Some((closing, rest)) = behind(b")", signs) {
        return Ok((Simple::Call(name, opening, None, closing), rest));
    }
    if room == 0 {
        return Err(Stop::Stuck(signs.len()));
    }
    arguments(alloc, room, name, opening, signs)
}

/// Arguments, of which there is one or more, and a closing parenthesis.
fn arguments<'t, 'a>(
    alloc: Global,
    room: usize,
    name: Name,
    opening: u32,
    signs: &'t [Sign<'a>],
) -> Result<(Simple, &'t [Sign<'a>]), Stop>
    requires some { 1 ≤ room }
    requires few { room ≤ 200 }
    ensures says { Says (λ x. Found (act x.0) (map seen x.1.now)) result (made Invoke (with_arguments room name opening)) (map seen signs.now) }
    ensures shorter { IfOk result (λ x. length x.1.now < length signs.now) }
{
    let (first, rest) = whole(alloc, room, signs)?;
    let (first, (more, closing, rest)) = kept(first, others(alloc, room, rest))?;
    let call = Simple::Call(name, opening, Some((first, more)), closing);
    Ok((call, rest))
}

/// Further arguments, each behind its comma, and a closing parenthesis.
fn others<'t, 'a>(
    alloc: Global,
    room: usize,
    signs: &'t [Sign<'a>],
) -> Result<(Items<(u32, Expr)>, u32, &'t [Sign<'a>]), Stop>
    requires some { 1 ≤ room }
    requires few { room ≤ 200 }
    ensures says { Says (λ x. Found (formulas x.0, x.1) (map seen x.2.now)) result (until (codes ")") (sign (codes ",") >>> expression room)) (map seen signs.now) }
    ensures shorter { IfOk result (λ x. length x.2.now < length signs.now) }
{
    let mut found = Items::new(alloc);
    // all of them, by a call, since each turn replaces them by what a call gives
    let (_, mut rest) = signs.split_at(0);
    loop {
        if let Some((closing, after)) = behind(b")", rest) {
            return Ok((found, closing, after));
        }
        let (comma, argument, after) = argument(alloc, room, rest)?;
        found.push((comma, argument))?;
        rest = after;
    }
}

/// An argument behind its comma.
fn argument<'t, 'a>(
    alloc: Global,
    room: usize,
    signs: &'t [Sign<'a>],
) -> Result<(u32, Expr, &'t [Sign<'a>]), Stop>
    requires some { 1 ≤ room }
    requires few { room ≤ 200 }
    ensures says { Says (λ x. Found (x.0, formula x.1) (map seen x.2.now)) result (sign (codes ",") >>> expression room) (map seen signs.now) }
    ensures shorter { IfOk result (λ x. length x.2.now < length signs.now) }
{
    let (comma, rest) = mark(b",", signs)?;
    let (e, rest) = whole(alloc, room, rest)?;
    Ok((comma, e, rest))
}
