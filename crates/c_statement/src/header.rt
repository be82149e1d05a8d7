//! What stands between the parentheses of a `for`, from symbols.
ghost use Rattle.std.specs.Prelude.{◌≡◌, ◌≤◌, ◌<◌, ◌-◌, length, map, IfOk, codes};
ghost use Rattle.std.specs.Option.{option_map};
ghost use Rattle.c_tree.specs.Statement.{act, opening};
ghost use Rattle.readings.specs.Reading.{Found};
ghost use Rattle.readings.specs.Readings.{◌>>>◌, sign};
ghost use Rattle.readings.specs.Seen.{seen, Says};
ghost use Rattle.c_grammar.specs.Acts.{act_read};
ghost use Rattle.c_grammar.specs.Until.{ended};
ghost use Rattle.c_grammar.specs.Declarations.{expression};
ghost use Rattle.c_grammar.specs.ReadingStatements as spec;
ghost use Rattle.c_statement.specs.Seen.{header_of, later_of};

use crate::act::simple;
use crate::closed::{ended_value, kept};
use crate::declaration::variable_within;
use c_tree::{Expr, First, Simple, TypeWord};
use readings::{Sign, Stop, behind, mark};
use std::alloc::Global;

/// The second and the third part, and what ends them.
#[derive(Drop)]
pub struct Later {
    pub condition: Option<Expr>,
    pub second: u32,
    pub last: Option<Simple>,
    pub closing: u32,
}

/// The three parts with the parentheses about them.
#[derive(Drop)]
pub struct Header {
    pub opening: u32,
    pub first: Option<First>,
    pub semicolon: u32,
    pub later: Later,
}

/// The three parts of a `for`, with the parentheses about them.
pub fn three_parts<'t, 'a>(
    alloc: Global,
    room: usize,
    signs: &'t [Sign<'a>],
) -> Result<(Header, &'t [Sign<'a>]), Stop>
    requires some { 1 ≤ room }
    requires few { room ≤ 200 }
    ensures says { Says (λ x. Found (header_of x.0) (map seen x.1.now)) result (spec.header room) (map seen signs.now) }
    ensures shorter { IfOk result (λ x. length x.1.now < length signs.now) }
{
    let (opening, rest) = mark(b"(", signs)?;
    let (first, semicolon, rest) = first_part(alloc, room - 1, rest)?;
    let (first, (later, rest)) = kept(first, two_parts(alloc, room, rest))?;
    let header = Header {
        opening,
        first,
        semicolon,
        later,
    };
    Ok((header, rest))
}

/// The second and the third part of a `for`.
fn two_parts<'t, 'a>(
    alloc: Global,
    room: usize,
    signs: &'t [Sign<'a>],
) -> Result<(Later, &'t [Sign<'a>]), Stop>
    requires some { 1 ≤ room }
    requires few { room ≤ 200 }
    ensures says { Says (λ x. Found (later_of x.0) (map seen x.1.now)) result (ended (codes ";") (expression room) >>> ended (codes ")") (act_read (room - 1))) (map seen signs.now) }
    ensures shorter { IfOk result (λ x. length x.1.now < length signs.now) }
{
    let (condition, second, rest) = ended_value(alloc, room, signs)?;
    let (condition, (last, closing, rest)) = kept(condition, last_part(alloc, room - 1, rest))?;
    let later = Later {
        condition,
        second,
        last,
        closing,
    };
    Ok((later, rest))
}

/// The first part, where there is one, and its semicolon.
fn first_part<'t, 'a>(
    alloc: Global,
    room: usize,
    signs: &'t [Sign<'a>],
) -> Result<(Option<First>, u32, &'t [Sign<'a>]), Stop>
    requires few { room ≤ 200 }
    ensures says { Says (λ x. Found (option_map opening x.0, x.1) (map seen x.2.now)) result (ended (codes ";") (spec.opening_read room)) (map seen signs.now) }
    ensures shorter { IfOk result (λ x. length x.2.now < length signs.now) }
{
    if let Some((at, rest)) = behind(b";", signs) {
        return Ok((None, at, rest));
    }
    let (first, rest) = first_of(alloc, room, signs)?;
    let (first, (at, rest)) = kept(first, mark(b";", rest))?;
    Ok((Some(first), at, rest))
}

/// A simple statement, or a variable behind `int`.
fn first_of<'t, 'a>(
    alloc: Global,
    room: usize,
    signs: &'t [Sign<'a>],
) -> Result<(First, &'t [Sign<'a>]), Stop>
    requires few { room ≤ 200 }
    ensures says { Says (λ x. Found (opening x.0) (map seen x.1.now)) result (spec.opening_read room) (map seen signs.now) }
    ensures shorter { IfOk result (λ x. length x.1.now < length signs.now) }
{
    match behind(b"int", signs) {
        Some((at, rest)) => {
            let (v, rest) = variable_within(alloc, room, rest)?;
            Ok((First::Var(TypeWord::Int(at), v), rest))
        }
        None => {
            let (simple, rest) = simple(alloc, room, signs)?;
            Ok((First::Simple(simple), rest))
        }
    }
}

/// The third part, where there is one, and the closing parenthesis.
fn last_part<'t, 'a>(
    alloc: Global,
    room: usize,
    signs: &'t [Sign<'a>],
) -> Result<(Option<Simple>, u32, &'t [Sign<'a>]), Stop>
    requires few { room ≤ 200 }
    ensures says { Says (λ x. Found (option_map act x.0, x.1) (map seen x.2.now)) result (ended (codes ")") (act_read room)) (map seen signs.now) }
    ensures shorter { IfOk result (λ x. length x.2.now < length signs.now) }
{
    if let Some((at, rest)) = behind(b")", signs) {
        return Ok((None, at, rest));
    }
    let (last, rest) = simple(alloc, room, signs)?;
    let (last, (at, rest)) = kept(last, mark(b")", rest))?;
    Ok((Some(last), at, rest))
}
