//! Declarations of local variables, from symbols.
ghost use Rattle.std.specs.Prelude.{◌≡◌, ◌≤◌, ◌<◌, length, map, IfOk, codes};
ghost use Rattle.c_tree.specs.Statement.{declaration, variable};
ghost use Rattle.readings.specs.Reading.{Found};
ghost use Rattle.readings.specs.Readings.{◌>>>◌, sign};
ghost use Rattle.readings.specs.Seen.{seen, Says};
ghost use Rattle.c_grammar.specs.Declarations as spec;
ghost use Rattle.c_statement.specs.Seen.{variables};

use crate::closed::kept;
use crate::front::{name, number};
use c_expression::whole;
use c_tree::{Decl, LVar, Name, TypeWord};
use readings::{Sign, Stop, behind, mark};
use sqlite_items::Items;
use std::alloc::Global;

/// `v , v ;` behind `int` at this place, whose initial values are at most so deep.
pub fn variables_declared<'t, 'a>(
    alloc: Global,
    room: usize,
    at: u32,
    signs: &'t [Sign<'a>],
) -> Result<(Decl, &'t [Sign<'a>]), Stop>
    requires few { room ≤ 200 }
    ensures says { Says (λ x. Found (declaration x.0) (map seen x.1.now)) result (spec.declaration_read room at) (map seen signs.now) }
    ensures shorter { IfOk result (λ x. length x.1.now < length signs.now) }
{
    let (first, rest) = variable_within(alloc, room, signs)?;
    let (first, (others, semicolon, rest)) = kept(first, further_variables(alloc, room, rest))?;
    let decl = Decl {
        word: TypeWord::Int(at),
        first,
        rest: others,
        semicolon,
    };
    Ok((decl, rest))
}

/// Further variables, each behind its comma, and a semicolon.
fn further_variables<'t, 'a>(
    alloc: Global,
    room: usize,
    signs: &'t [Sign<'a>],
) -> Result<(Items<(u32, LVar)>, u32, &'t [Sign<'a>]), Stop>
    requires few { room ≤ 200 }
    ensures says { Says (λ x. Found (variables x.0, x.1) (map seen x.2.now)) result (spec.further_variables room) (map seen signs.now) }
    ensures shorter { IfOk result (λ x. length x.2.now < length signs.now) }
{
    let mut found = Items::new(alloc);
    // all of them, by a call, since each turn replaces them by what a call gives
    let (_, mut rest) = signs.split_at(0);
    loop {
        if let Some((semicolon, after)) = behind(b";", rest) {
            return Ok((found, semicolon, after));
        }
        let (comma, v, after) = further_variable(alloc, room, rest)?;
        found.push((comma, v))?;
        rest = after;
    }
}

/// A variable behind its comma.
fn further_variable<'t, 'a>(
    alloc: Global,
    room: usize,
    signs: &'t [Sign<'a>],
) -> Result<(u32, LVar, &'t [Sign<'a>]), Stop>
    requires few { room ≤ 200 }
    ensures says { Says (λ x. Found (x.0, variable x.1) (map seen x.2.now)) result (sign (codes ",") >>> spec.variable_within room) (map seen signs.now) }
    ensures shorter { IfOk result (λ x. length x.2.now < length signs.now) }
{
    let (comma, rest) = mark(b",", signs)?;
    let (v, rest) = variable_within(alloc, room, rest)?;
    Ok((comma, v, rest))
}

/// A variable whose initial value is at most so deep: where there is no room for one, it has none.
pub fn variable_within<'t, 'a>(
    alloc: Global,
    room: usize,
    signs: &'t [Sign<'a>],
) -> Result<(LVar, &'t [Sign<'a>]), Stop>
    requires few { room ≤ 200 }
    ensures says { Says (λ x. Found (variable x.0) (map seen x.1.now)) result (spec.variable_within room) (map seen signs.now) }
    ensures shorter { IfOk result (λ x. length x.1.now < length signs.now) }
{
    let (name, rest) = name(alloc, signs)?;
    if room == 0 {
        without_initial(name, rest)
    } else {
        variable_behind(alloc, room, name, rest)
    }
}

/// What stands behind the name of a variable.
fn variable_behind<'t, 'a>(
    alloc: Global,
    room: usize,
    name: Name,
    signs: &'t [Sign<'a>],
) -> Result<(LVar, &'t [Sign<'a>]), Stop>
    requires some { 1 ≤ room }
    requires few { room ≤ 200 }
    ensures says { Says (λ x. Found (variable x.0) (map seen x.1.now)) result (spec.variable_behind room name) (map seen signs.now) }
    ensures shorter { IfOk result (λ x. length x.1.now ≤ length signs.now) }
{
    match behind(b"=", signs) {
        Some((at, rest)) => initial(alloc, room, name, at, rest),
        None => without_initial(name, signs),
    }
}

/// An initial value, behind its mark.
fn initial<'t, 'a>(
    alloc: Global,
    room: usize,
    name: Name,
    at: u32,
    signs: &'t [Sign<'a>],
) -> Result<(LVar, &'t [Sign<'a>]), Stop>
    requires some { 1 ≤ room }
    requires few { room ≤ 200 }
    ensures says { Says (λ x. Found (variable x.0) (map seen x.1.now)) result (spec.initial room name at) (map seen signs.now) }
    ensures shorter { IfOk result (λ x. length x.1.now ≤ length signs.now) }
{
    let (e, rest) = whole(alloc, room, signs)?;
    Ok((LVar::Scalar(name, Some((at, e))), rest))
}

/// What stands behind the name of a variable without an initial value.
fn without_initial<'t, 'a>(
    name: Name,
    signs: &'t [Sign<'a>],
) -> Result<(LVar, &'t [Sign<'a>]), Stop>
    ensures says { Says (λ x. Found (variable x.0) (map seen x.1.now)) result (spec.without_initial name) (map seen signs.now) }
    ensures shorter { IfOk result (λ x. length x.1.now ≤ length signs.now) }
{
    match behind(b"[", signs) {
        Some((opening, rest)) => array(name, opening, rest),
        None => Ok((LVar::Scalar(name, None), signs)),
    }
}

/// The number of cells of an array, behind its opening bracket.
fn array<'t, 'a>(
    name: Name,
    opening: u32,
    signs: &'t [Sign<'a>],
) -> Result<(LVar, &'t [Sign<'a>]), Stop>
    ensures says { Says (λ x. Found (variable x.0) (map seen x.1.now)) result (spec.array name opening) (map seen signs.now) }
    ensures shorter { IfOk result (λ x. length x.1.now < length signs.now) }
{
    let (number, rest) = number(signs)?;
    let (closing, rest) = mark(b"]", rest)?;
    Ok((LVar::Array(name, opening, number, closing), rest))
}
