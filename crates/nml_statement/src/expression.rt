//! Expressions, from symbols.
ghost use Rattle.std.specs.Prelude.{◌≡◌, ◌<◌, ◌≤◌, ◌-◌, length, map, IfOk, codes};
ghost use Rattle.nml_tree.specs.Formula.{formula};
ghost use Rattle.nml_tree.specs.Depth.{depth};
ghost use Rattle.nml_statement.specs.Forms.{fit_of, formed};
ghost use Rattle.readings.specs.Reading.{Found, looked_up};
ghost use Rattle.nml_grammar.specs.Reading.{climb, beginnings};
ghost use Rattle.nml_statement.specs.Seen.{expression_of};
ghost use Rattle.readings.specs.Seen.{seen, Says};
ghost use Rattle.nml_grammar.specs.Reading as spec;
ghost use Rattle.readings.specs.Reading as marks;

use crate::beginning::{Beginning, Fit, Form, begun_by, fitting, operating, truth};
use crate::front::size;
use crate::operator::{joined, operator};
use nk_base::Text;
use nml_tree::{Expr, Name, Number};
use readings::{Sign, Stop, behind, mark};
use sqlite_items::Boxed;
use std::alloc::Global;

/// The level of the operators of one operand, above all of two.
const UNARY_LEVEL: usize = 10;

/// An expression whose outermost level is this one or a stronger one, and which is at most so deep, as long as it goes; and its depth.
#[cycle(expressions)]
pub fn expression<'t, 'a>(
    alloc: Global,
    level: usize,
    room: usize,
    signs: &'t [Sign<'a>],
) -> Result<(Expr, usize, &'t [Sign<'a>]), Stop>
    requires { 1 ≤ room }
    ensures says { Says (λ x. Found (formula x.0) (map seen x.2.now)) result (λ n ss. climb n level room ss) (map seen signs.now) }
    ensures deep { IfOk result (λ x. depth (formula x.0) ≡ x.1) }
    ensures within { IfOk result (λ x. (1 ≤ x.1) × (x.1 ≤ room)) }
    ensures shorter { IfOk result (λ x. length x.2.now < length signs.now) }
{
    let (mut left, mut deep, mut rest) = operand(alloc, room, signs)?;
    while let Some(turn) = operator(level, rest) {
        if room <= deep {
            return Err(Stop::Stuck(rest.len()));
        }
        let (right, below, behind) = part(alloc, turn.level + 1, room, turn.rest)?;
        let former = Boxed::new(alloc, left)?;
        left = joined(turn.op, former, turn.at, right);
        deep = 1 + deep.max(below);
        rest = behind;
    }
    Ok((left, deep, rest))
}

/// An expression that is at most `room` nodes deep, from 1 to 200, as long as it goes, and what stands behind it.
///
/// `Stuck` tells how many symbols are left where one fits nothing, or none is where one is wanted; a node that is one too deep fits nothing.
/// The other error is want of memory. The grammar is this project's own. It calls itself as deep as expressions stand in expressions.
pub fn whole<'t, 'a>(
    alloc: Global,
    room: usize,
    signs: &'t [Sign<'a>],
) -> Result<(Expr, &'t [Sign<'a>]), Stop>
    requires some { 1 ≤ room }
    requires few { room ≤ 200 }
    ensures says { Says (λ x. Found (formula x.0) (map seen x.1.now)) result (expression_of room) (map seen signs.now) }
    ensures shorter { IfOk result (λ x. length x.1.now < length signs.now) }
{
    let (found, _, rest) = expression(alloc, 0, room, signs)?;
    Ok((found, rest))
}

/// An expression within one that is at most so deep, and its own depth.
#[cycle(expressions)]
fn part<'t, 'a>(
    alloc: Global,
    level: usize,
    room: usize,
    signs: &'t [Sign<'a>],
) -> Result<(Boxed<Expr>, usize, &'t [Sign<'a>]), Stop>
    requires { 2 ≤ room }
    ensures says { Says (λ x. Found (formula x.0) (map seen x.2.now)) result (λ n ss. climb n level (room - 1) ss) (map seen signs.now) }
    ensures deep { IfOk result (λ x. depth (formula x.0) ≡ x.1) }
    ensures within { IfOk result (λ x. (1 ≤ x.1) × (x.1 < room)) }
    ensures shorter { IfOk result (λ x. length x.2.now < length signs.now) }
{
    let (inner, deep, rest) = expression(alloc, level, room - 1, signs)?;
    Ok((Boxed::new(alloc, inner)?, deep, rest))
}

/// An expression without an operator of two operands outermost, and its depth.
#[cycle(expressions)]
fn operand<'t, 'a>(
    alloc: Global,
    room: usize,
    signs: &'t [Sign<'a>],
) -> Result<(Expr, usize, &'t [Sign<'a>]), Stop>
    requires { 1 ≤ room }
    ensures says { Says (λ x. Found (formula x.0) (map seen x.2.now)) result (λ n ss. spec.operand (climb n) room ss) (map seen signs.now) }
    ensures deep { IfOk result (λ x. depth (formula x.0) ≡ x.1) }
    ensures within { IfOk result (λ x. (1 ≤ x.1) × (x.1 ≤ room)) }
    ensures shorter { IfOk result (λ x. length x.2.now < length signs.now) }
{
    let Some((first, rest)) = signs.split_first() else {
        return Err(Stop::Stuck(signs.len()));
    };
    match *first {
        Sign::Fixed(at, text) => begun(alloc, room, at, text, signs, rest),
        Sign::Named(at, text) => {
            let text = Text::from_bytes(alloc, text)?;
            indexed(alloc, room, Name { at, text }, rest)
        }
        Sign::Number(at, value) => Ok((Expr::Number(Number { at, value }), 1, rest)),
        Sign::Quoted(_, _) => Err(Stop::Stuck(signs.len())),
    }
}

/// What begins with this keyword or mark, behind which the rest stands, and its depth; here are the symbols from it on.
#[cycle(expressions)]
fn begun<'t, 'a>(
    alloc: Global,
    room: usize,
    at: u32,
    text: &[u8],
    here: &'t [Sign<'a>],
    rest: &'t [Sign<'a>],
) -> Result<(Expr, usize, &'t [Sign<'a>]), Stop>
    requires { 1 ≤ room }
    ensures says { Says (λ x. Found (formula x.0) (map seen x.2.now)) result
        (λ n ss. spec.begun (climb n) room (map seen here.now) at ss (looked_up beginnings text.now)) (map seen rest.now) }
    ensures deep { IfOk result (λ x. depth (formula x.0) ≡ x.1) }
    ensures within { IfOk result (λ x. (1 ≤ x.1) × (x.1 ≤ room)) }
    ensures shorter { IfOk result (λ x. length x.2.now ≤ length rest.now) }
{
    match begun_by(text) {
        None => Err(Stop::Stuck(here.len())),
        Some(Beginning::Value(value)) => Ok((truth(at, value), 1, rest)),
        Some(Beginning::Node(form)) => {
            if room <= 1 {
                Err(Stop::Stuck(here.len()))
            } else {
                node(alloc, room, form, at, rest)
            }
        }
    }
}

/// An expression that has others within it, behind its first symbol, and its depth.
#[cycle(expressions)]
fn node<'t, 'a>(
    alloc: Global,
    room: usize,
    form: Form,
    at: u32,
    signs: &'t [Sign<'a>],
) -> Result<(Expr, usize, &'t [Sign<'a>]), Stop>
    requires { 2 ≤ room }
    ensures says { Says (λ x. Found (formula x.0) (map seen x.2.now)) result (λ n ss. formed (climb n) room form at ss) (map seen signs.now) }
    ensures deep { IfOk result (λ x. depth (formula x.0) ≡ x.1) }
    ensures within { IfOk result (λ x. (1 ≤ x.1) × (x.1 ≤ room)) }
    ensures shorter { IfOk result (λ x. length x.2.now < length signs.now) }
{
    match form {
        Form::Paren => paren(alloc, room, at, signs),
        Form::Fitted(fit) => fitted(alloc, room, fit, at, signs),
        Form::Slice => slice(alloc, room, at, signs),
        Form::Choice => choice(alloc, room, at, signs),
        Form::Operation(op) => {
            let (inner, deep, rest) = part(alloc, UNARY_LEVEL, room, signs)?;
            Ok((operating(op, at, inner), 1 + deep, rest))
        }
    }
}

/// A name that was read, with its index where one stands behind it, and its depth.
#[cycle(expressions)]
fn indexed<'t, 'a>(
    alloc: Global,
    room: usize,
    name: Name,
    signs: &'t [Sign<'a>],
) -> Result<(Expr, usize, &'t [Sign<'a>]), Stop>
    requires { 1 ≤ room }
    ensures says { Says (λ x. Found (formula x.0) (map seen x.2.now)) result
        (λ n ss. spec.index (climb n) room name ss (marks.behind (codes "[") ss)) (map seen signs.now) }
    ensures deep { IfOk result (λ x. depth (formula x.0) ≡ x.1) }
    ensures within { IfOk result (λ x. (1 ≤ x.1) × (x.1 ≤ room)) }
    ensures shorter { IfOk result (λ x. length x.2.now ≤ length signs.now) }
{
    let Some((opening, rest)) = behind(b"[", signs) else {
        return Ok((Expr::Name(name, None), 1, signs));
    };
    if room <= 1 {
        return Err(Stop::Stuck(signs.len()));
    }
    let (index, deep, rest) = part(alloc, 0, room, rest)?;
    let (closing, rest) = mark(b"]", rest)?;
    Ok((
        Expr::Name(name, Some((opening, index, closing))),
        1 + deep,
        rest,
    ))
}

/// `( e )`, behind its first symbol, and its depth.
#[cycle(expressions)]
fn paren<'t, 'a>(
    alloc: Global,
    room: usize,
    at: u32,
    signs: &'t [Sign<'a>],
) -> Result<(Expr, usize, &'t [Sign<'a>]), Stop>
    requires { 2 ≤ room }
    ensures says { Says (λ x. Found (formula x.0) (map seen x.2.now)) result (λ n ss. spec.paren (climb n) room at ss) (map seen signs.now) }
    ensures deep { IfOk result (λ x. depth (formula x.0) ≡ x.1) }
    ensures within { IfOk result (λ x. (1 ≤ x.1) × (x.1 ≤ room)) }
    ensures shorter { IfOk result (λ x. length x.2.now < length signs.now) }
{
    let (inner, deep, rest) = part(alloc, 0, room, signs)?;
    let (closing, rest) = mark(b")", rest)?;
    Ok((Expr::Paren(at, inner, closing), 1 + deep, rest))
}

/// `int ( size , e )` and the like, behind its first symbol, and its depth.
#[cycle(expressions)]
fn fitted<'t, 'a>(
    alloc: Global,
    room: usize,
    fit: Fit,
    at: u32,
    signs: &'t [Sign<'a>],
) -> Result<(Expr, usize, &'t [Sign<'a>]), Stop>
    requires { 2 ≤ room }
    ensures says { Says (λ x. Found (formula x.0) (map seen x.2.now)) result (λ n ss. spec.fitted (climb n) room (fit_of fit) at ss) (map seen signs.now) }
    ensures deep { IfOk result (λ x. depth (formula x.0) ≡ x.1) }
    ensures within { IfOk result (λ x. (1 ≤ x.1) × (x.1 ≤ room)) }
    ensures shorter { IfOk result (λ x. length x.2.now < length signs.now) }
{
    let (opening, rest) = mark(b"(", signs)?;
    let (size, rest) = size(alloc, rest)?;
    let (comma, rest) = mark(b",", rest)?;
    let (inner, deep, rest) = part(alloc, 0, room, rest)?;
    let (closing, rest) = mark(b")", rest)?;
    Ok((
        fitting(fit, at, opening, size, comma, inner, closing),
        1 + deep,
        rest,
    ))
}

/// `bits ( e , size , size )`, behind its first symbol, and its depth.
#[cycle(expressions)]
fn slice<'t, 'a>(
    alloc: Global,
    room: usize,
    at: u32,
    signs: &'t [Sign<'a>],
) -> Result<(Expr, usize, &'t [Sign<'a>]), Stop>
    requires { 2 ≤ room }
    ensures says { Says (λ x. Found (formula x.0) (map seen x.2.now)) result (λ n ss. spec.slice (climb n) room at ss) (map seen signs.now) }
    ensures deep { IfOk result (λ x. depth (formula x.0) ≡ x.1) }
    ensures within { IfOk result (λ x. (1 ≤ x.1) × (x.1 ≤ room)) }
    ensures shorter { IfOk result (λ x. length x.2.now < length signs.now) }
{
    let (opening, rest) = mark(b"(", signs)?;
    let (inner, deep, rest) = part(alloc, 0, room, rest)?;
    let (comma, rest) = mark(b",", rest)?;
    let (high, rest) = size(alloc, rest)?;
    let (second_comma, rest) = mark(b",", rest)?;
    let (low, rest) = size(alloc, rest)?;
    let (closing, rest) = mark(b")", rest)?;
    let bits = Expr::Bits(at, opening, inner, comma, high, second_comma, low, closing);
    Ok((bits, 1 + deep, rest))
}

/// `if e then e else e endif`, behind its first symbol, and its depth.
#[cycle(expressions)]
fn choice<'t, 'a>(
    alloc: Global,
    room: usize,
    at: u32,
    signs: &'t [Sign<'a>],
) -> Result<(Expr, usize, &'t [Sign<'a>]), Stop>
    requires { 2 ≤ room }
    ensures says { Says (λ x. Found (formula x.0) (map seen x.2.now)) result (λ n ss. spec.choice (climb n) room at ss) (map seen signs.now) }
    ensures deep { IfOk result (λ x. depth (formula x.0) ≡ x.1) }
    ensures within { IfOk result (λ x. (1 ≤ x.1) × (x.1 ≤ room)) }
    ensures shorter { IfOk result (λ x. length x.2.now < length signs.now) }
{
    let (condition, first, rest) = part(alloc, 0, room, signs)?;
    let (then_at, rest) = mark(b"then", rest)?;
    let (chosen, second, rest) = part(alloc, 0, room, rest)?;
    let (else_at, rest) = mark(b"else", rest)?;
    let (other, third, rest) = part(alloc, 0, room, rest)?;
    let (end_at, rest) = mark(b"endif", rest)?;
    let whole = Expr::If(at, condition, then_at, chosen, else_at, other, end_at);
    Ok((whole, 1 + first.max(second.max(third)), rest))
}
