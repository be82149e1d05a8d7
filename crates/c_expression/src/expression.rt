//! Expressions, from symbols.
ghost use Rattle.std.specs.Prelude.{◌≡◌, ◌<◌, ◌≤◌, ◌-◌, length, map, max, IfOk, codes};
ghost use Rattle.c_tree.specs.Formula.{formula};
ghost use Rattle.c_tree.specs.Depth.{depth, further_depth};
ghost use Rattle.c_expression.specs.Forms.{formed};
ghost use Rattle.readings.specs.Reading.{Found, looked_up};
ghost use Rattle.c_grammar.specs.Reading.{climb, further, beginnings};
ghost use Rattle.c_expression.specs.Seen.{expression_of, others_of};
ghost use Rattle.readings.specs.Seen.{seen, Says};
ghost use Rattle.c_grammar.specs.Reading as spec;
ghost use Rattle.readings.specs.Reading as marks;

use crate::beginning::{Form, begun_by, operating};
use crate::operator::{joined, operator};
use c_tree::{Expr, Name, Number};
use nk_base::Text;
use readings::{Sign, Stop, behind, mark};
use sqlite_items::{Boxed, Items};
use std::alloc::Global;

/// The level of the operators of one operand, above all of two.
const UNARY_LEVEL: usize = 10;

/// An expression whose outermost level is this one or a stronger one, and which is at most so deep, as long as it goes; and its depth.
#[cycle(expressions)]
pub fn expression<'t, 'a>(
    alloc: Global,
    level: usize,
    room: usize,
    signs: &'t [Sign<'a>],
) -> Result<(Expr, usize, &'t [Sign<'a>]), Stop>
    requires { 1 ≤ room }
    ensures says { Says (λ x. Found (formula x.0) (map seen x.2.now)) result (λ n ss. climb n level room ss) (map seen signs.now) }
    ensures deep { IfOk result (λ x. depth (formula x.0) ≡ x.1) }
    ensures within { IfOk result (λ x. (1 ≤ x.1) × (x.1 ≤ room)) }
    ensures shorter { IfOk result (λ x. length x.2.now < length signs.now) }
{
    let (mut left, mut deep, mut rest) = operand(alloc, room, signs)?;
    while let Some(turn) = operator(level, rest) {
        if room <= deep {
            return Err(Stop::Stuck(rest.len()));
        }
        let (right, below, behind) = part(alloc, turn.level + 1, room, turn.rest)?;
        let former = Boxed::new(alloc, left)?;
        left = joined(turn.op, former, turn.at, right);
        deep = 1 + deep.max(below);
        rest = behind;
    }
    Ok((left, deep, rest))
}

/// An expression that is at most `room` nodes deep, from 1 to 200, as long as it goes, and what stands behind it.
///
/// `Stuck` tells how many symbols are left where one fits nothing, or none is where one is wanted; a node that is one too deep fits nothing.
/// The other error is want of memory. The grammar is this project's own. It calls itself as deep as expressions stand in expressions.
pub fn whole<'t, 'a>(
    alloc: Global,
    room: usize,
    signs: &'t [Sign<'a>],
) -> Result<(Expr, &'t [Sign<'a>]), Stop>
    requires some { 1 ≤ room }
    requires few { room ≤ 200 }
    ensures says { Says (λ x. Found (formula x.0) (map seen x.1.now)) result (expression_of room) (map seen signs.now) }
    ensures shorter { IfOk result (λ x. length x.1.now < length signs.now) }
{
    let (found, _, rest) = expression(alloc, 0, room, signs)?;
    Ok((found, rest))
}

/// An expression within one that is at most so deep, and its own depth.
#[cycle(expressions)]
fn part<'t, 'a>(
    alloc: Global,
    level: usize,
    room: usize,
    signs: &'t [Sign<'a>],
) -> Result<(Boxed<Expr>, usize, &'t [Sign<'a>]), Stop>
    requires { 2 ≤ room }
    ensures says { Says (λ x. Found (formula x.0) (map seen x.2.now)) result (λ n ss. climb n level (room - 1) ss) (map seen signs.now) }
    ensures deep { IfOk result (λ x. depth (formula x.0) ≡ x.1) }
    ensures within { IfOk result (λ x. (1 ≤ x.1) × (x.1 < room)) }
    ensures shorter { IfOk result (λ x. length x.2.now < length signs.now) }
{
    let (inner, deep, rest) = expression(alloc, level, room - 1, signs)?;
    Ok((Boxed::new(alloc, inner)?, deep, rest))
}

/// An expression without an operator of two operands outermost, and its depth.
#[cycle(expressions)]
fn operand<'t, 'a>(
    alloc: Global,
    room: usize,
    signs: &'t [Sign<'a>],
) -> Result<(Expr, usize, &'t [Sign<'a>]), Stop>
    requires { 1 ≤ room }
    ensures says { Says (λ x. Found (formula x.0) (map seen x.2.now)) result (λ n ss. spec.operand (climb n) (further n) room ss) (map seen signs.now) }
    ensures deep { IfOk result (λ x. depth (formula x.0) ≡ x.1) }
    ensures within { IfOk result (λ x. (1 ≤ x.1) × (x.1 ≤ room)) }
    ensures shorter { IfOk result (λ x. length x.2.now < length signs.now) }
{
    let Some((first, rest)) = signs.split_first() else {
        return Err(Stop::Stuck(signs.len()));
    };
    match *first {
        Sign::Fixed(at, text) => begun(alloc, room, at, text, signs, rest),
        Sign::Named(at, text) => {
            let text = Text::from_bytes(alloc, text)?;
            named(alloc, room, Name { at, text }, rest)
        }
        Sign::Number(at, value) => Ok((Expr::Number(Number { at, value }), 1, rest)),
        Sign::Quoted(_, _) => Err(Stop::Stuck(signs.len())),
    }
}

/// What begins with this mark, behind which the rest stands, and its depth; here are the symbols from it on.
#[cycle(expressions)]
fn begun<'t, 'a>(
    alloc: Global,
    room: usize,
    at: u32,
    text: &[u8],
    here: &'t [Sign<'a>],
    rest: &'t [Sign<'a>],
) -> Result<(Expr, usize, &'t [Sign<'a>]), Stop>
    requires { 1 ≤ room }
    ensures says { Says (λ x. Found (formula x.0) (map seen x.2.now)) result
        (λ n ss. spec.begun (climb n) room (map seen here.now) at ss (looked_up beginnings text.now)) (map seen rest.now) }
    ensures deep { IfOk result (λ x. depth (formula x.0) ≡ x.1) }
    ensures within { IfOk result (λ x. (1 ≤ x.1) × (x.1 ≤ room)) }
    ensures shorter { IfOk result (λ x. length x.2.now ≤ length rest.now) }
{
    match begun_by(text) {
        None => Err(Stop::Stuck(here.len())),
        Some(form) => {
            if room <= 1 {
                Err(Stop::Stuck(here.len()))
            } else {
                node(alloc, room, form, at, rest)
            }
        }
    }
}

/// An expression that has another within it, behind its first symbol, and its depth.
#[cycle(expressions)]
fn node<'t, 'a>(
    alloc: Global,
    room: usize,
    form: Form,
    at: u32,
    signs: &'t [Sign<'a>],
) -> Result<(Expr, usize, &'t [Sign<'a>]), Stop>
    requires { 2 ≤ room }
    ensures says { Says (λ x. Found (formula x.0) (map seen x.2.now)) result (λ n ss. formed (climb n) room form at ss) (map seen signs.now) }
    ensures deep { IfOk result (λ x. depth (formula x.0) ≡ x.1) }
    ensures within { IfOk result (λ x. (1 ≤ x.1) × (x.1 ≤ room)) }
    ensures shorter { IfOk result (λ x. length x.2.now < length signs.now) }
{
    match form {
        Form::Paren => paren(alloc, room, at, signs),
        Form::Operation(op) => {
            let (inner, deep, rest) = part(alloc, UNARY_LEVEL, room, signs)?;
            Ok((operating(op, at, inner), 1 + deep, rest))
        }
    }
}

/// A name that was read, with the index or the arguments that stand behind it, and its depth.
#[cycle(expressions)]
fn named<'t, 'a>(
    alloc: Global,
    room: usize,
    name: Name,
    signs: &'t [Sign<'a>],
) -> Result<(Expr, usize, &'t [Sign<'a>]), Stop>
    requires { 1 ≤ room }
    ensures says { Says (λ x. Found (formula x.0) (map seen x.2.now)) result
        (λ n ss. spec.named (climb n) (further n) room name ss (marks.behind (codes "[") ss)) (map seen signs.now) }
    ensures deep { IfOk result (λ x. depth (formula x.0) ≡ x.1) }
    ensures within { IfOk result (λ x. (1 ≤ x.1) × (x.1 ≤ room)) }
    ensures shorter { IfOk result (λ x. length x.2.now ≤ length signs.now) }
{
    let Some((opening, rest)) = behind(b"[", signs) else {
        return called(alloc, room, name, signs);
    };
    if room <= 1 {
        return Err(Stop::Stuck(signs.len()));
    }
    let (index, deep, rest) = part(alloc, 0, room, rest)?;
    let (closing, rest) = mark(b"]", rest)?;
    Ok((
        Expr::Name(name, Some((opening, index, closing))),
        1 + deep,
        rest,
    ))
}

/// A name that was read, with the arguments of a call where they stand behind it, and its depth.
#[cycle(expressions)]
fn called<'t, 'a>(
    alloc: Global,
    room: usize,
    name: Name,
    signs: &'t [Sign<'a>],
) -> Result<(Expr, usize, &'t [Sign<'a>]), Stop>
    requires { 1 ≤ room }
    ensures says { Says (λ x. Found (formula x.0) (map seen x.2.now)) result
        (λ n ss. spec.call (climb n) (further n) room name ss (marks.behind (codes "(") ss)) (map seen signs.now) }
    ensures deep { IfOk result (λ x. depth (formula x.0) ≡ x.1) }
    ensures within { IfOk result (λ x. (1 ≤ x.1) × (x.1 ≤ room)) }
    ensures shorter { IfOk result (λ x. length x.2.now ≤ length signs.now) }
{
    let Some((opening, rest)) = behind(b"(", signs) else {
        return Ok((Expr::Name(name, None), 1, signs));
    };
    call(alloc, room, name, opening, rest)
}

/// What stands behind `NAME (`: a closing parenthesis, or arguments and one; and the depth of the call.
#[cycle(expressions)]
fn call<'t, 'a>(
    alloc: Global,
    room: usize,
    name: Name,
    opening: u32,
    signs: &'t [Sign<'a>],
) -> Result<(Expr, usize, &'t [Sign<'a>]), Stop>
    requires { 1 ≤ room }
    ensures says { Says (λ x. Found (formula x.0) (map seen x.2.now)) result
        (λ n ss. spec.call_from (climb n) (further n) room name opening ss (marks.behind (codes ")") ss)) (map seen signs.now) }
    ensures deep { IfOk result (λ x. depth (formula x.0) ≡ x.1) }
    ensures within { IfOk result (λ x. (1 ≤ x.1) × (x.1 ≤ room)) }
    ensures shorter { IfOk result (λ x. length x.2.now ≤ length signs.now) }
{
    if let Some((closing, rest)) = behind(b")", signs) {
        return Ok((Expr::Call(name, opening, None, closing), 1, rest));
    }
    if room <= 1 {
        return Err(Stop::Stuck(signs.len()));
    }
    arguments(alloc, room, name, opening, signs)
}

/// The arguments of a call, of which there is one or more, and the closing parenthesis; and the depth of the call.
#[cycle(expressions)]
fn arguments<'t, 'a>(
    alloc: Global,
    room: usize,
    name: Name,
    opening: u32,
    signs: &'t [Sign<'a>],
) -> Result<(Expr, usize, &'t [Sign<'a>]), Stop>
    requires { 2 ≤ room }
    ensures says { Says (λ x. Found (formula x.0) (map seen x.2.now)) result
        (λ n ss. spec.arguments (climb n) (further n) room name opening ss) (map seen signs.now) }
    ensures deep { IfOk result (λ x. depth (formula x.0) ≡ x.1) }
    ensures within { IfOk result (λ x. (1 ≤ x.1) × (x.1 ≤ room)) }
    ensures shorter { IfOk result (λ x. length x.2.now ≤ length signs.now) }
{
    let (first, deep, rest) = part(alloc, 0, room, signs)?;
    let (more, below, rest) = others(alloc, room - 1, rest)?;
    let (closing, rest) = mark(b")", rest)?;
    let call = Expr::Call(name, opening, Some((first, more)), closing);
    Ok((call, 1 + deep.max(below), rest))
}

/// Further arguments, each behind its comma and at most so deep, as long as a comma is next; and the depth of the deepest, 0 where there is none.
#[cycle(expressions)]
fn others<'t, 'a>(
    alloc: Global,
    room: usize,
    signs: &'t [Sign<'a>],
) -> Result<(Items<(u32, Expr)>, usize, &'t [Sign<'a>]), Stop>
    requires { 1 ≤ room }
    ensures says { Says (λ x. Found (others_of x.0) (map seen x.2.now)) result (λ n ss. further n room ss) (map seen signs.now) }
    ensures deep { IfOk result (λ x. further_depth (others_of x.0) ≡ x.1) }
    ensures within { IfOk result (λ x. x.1 ≤ room) }
    ensures shorter { IfOk result (λ x. length x.2.now ≤ length signs.now) }
{
    let mut found = Items::new(alloc);
    let mut deep = 0;
    // all of them, by a call, since each turn replaces them by what a call gives
    let (_, mut rest) = signs.split_at(0);
    while let Some((comma, after)) = behind(b",", rest) {
        let (argument, own, next) = expression(alloc, 0, room, after)?;
        found.push((comma, argument))?;
        deep = deeper(deep, own);
        rest = next;
    }
    Ok((found, deep, rest))
}

/// The greater of two depths.
fn deeper(one: usize, other: usize) -> usize
    ensures { result ≡ max one other }
{
    one.max(other)
}

/// `( e )`, behind its first symbol, and its depth.
#[cycle(expressions)]
fn paren<'t, 'a>(
    alloc: Global,
    room: usize,
    at: u32,
    signs: &'t [Sign<'a>],
) -> Result<(Expr, usize, &'t [Sign<'a>]), Stop>
    requires { 2 ≤ room }
    ensures says { Says (λ x. Found (formula x.0) (map seen x.2.now)) result (λ n ss. spec.paren (climb n) room at ss) (map seen signs.now) }
    ensures deep { IfOk result (λ x. depth (formula x.0) ≡ x.1) }
    ensures within { IfOk result (λ x. (1 ≤ x.1) × (x.1 ≤ room)) }
    ensures shorter { IfOk result (λ x. length x.2.now < length signs.now) }
{
    let (inner, deep, rest) = part(alloc, 0, room, signs)?;
    let (closing, rest) = mark(b")", rest)?;
    Ok((Expr::Paren(at, inner, closing), 1 + deep, rest))
}
