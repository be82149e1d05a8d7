//! Statements, from symbols.
ghost use Rattle.std.specs.Prelude.{◌≡◌, ◌≤◌, ◌<◌, ◌-◌, length, map, IfOk, MatchResult, Some, codes};
ghost use Rattle.std.specs.Option.{option_map};
ghost use Rattle.nml_tree.specs.Formula.{formula};
ghost use Rattle.nml_tree.specs.Block.{block, index, stmt};
ghost use Rattle.readings.specs.Reading.{Found};
ghost use Rattle.nml_grammar.specs.Reading.{climb};
ghost use Rattle.readings.specs.Readings.{◌>>>◌, optional, sign};
ghost use Rattle.nml_statement.specs.Seen.{block_of, expression_of};
ghost use Rattle.readings.specs.Seen.{seen, Says};
ghost use Rattle.nml_statement.specs.SeenStatements.{equals, start_seen};
ghost use Rattle.readings.specs.Reading as marks;
ghost use Rattle.nml_grammar.specs.ReadingStatements as spec;
ghost use Rattle.nml_statement.specs.SeenStatements as spec_of;

use crate::expression::whole;
use crate::start::{Start, first_of};
use nk_base::Text;
use nml_tree::{Expr, Name, Place, Stmt};
use readings::{Sign, Stop, behind, mark};
use sqlite_items::Items;
use std::alloc::Global;

/// Statements each of which is at most `room` nodes deep, from 1 to 200, as long as one begins, and what stands behind them; there may be none.
///
/// `Stuck` tells how many symbols are left where one fits nothing, or none is where one is wanted; a node that is one too deep fits nothing.
/// The other error is want of memory. The grammar is this project's own. It calls itself as deep as statements stand in statements.
#[cycle(statements)]
pub fn statements<'t, 'a>(
    alloc: Global,
    room: usize,
    signs: &'t [Sign<'a>],
) -> Result<(Items<Stmt>, &'t [Sign<'a>]), Stop>
    requires some { 1 ≤ room }
    requires few { room ≤ 200 }
    ensures says { Says (λ x. Found (block x.0) (map seen x.1.now)) result (block_of room) (map seen signs.now) }
    ensures shorter { IfOk result (λ x. length x.1.now ≤ length signs.now) }
{
    let mut found = Items::new(alloc);
    // all of them, by a call, since each turn replaces them by what a call gives
    let (_, mut rest) = signs.split_at(0);
    while let Some((start, behind)) = first_of(rest) {
        let (one, after) = statement(alloc, room, start, rest, behind)?;
        found.push(one)?;
        rest = after;
    }
    Ok((found, rest))
}

/// The statement that begins so; `here` are the symbols from its first one on.
#[cycle(statements)]
fn statement<'t, 'a>(
    alloc: Global,
    room: usize,
    start: Start<'a>,
    here: &[Sign<'a>],
    signs: &'t [Sign<'a>],
) -> Result<(Stmt, &'t [Sign<'a>]), Stop>
    requires some { 1 ≤ room }
    requires few { room ≤ 200 }
    ensures says { Says (λ x. Found (stmt x.0) (map seen x.1.now)) result (λ n ss. spec.statement (climb n) (spec.statements n) room (map seen here.now) (start_seen start.entry) ss) (map seen signs.now) }
    ensures shorter { IfOk result (λ x. length x.1.now < length signs.now) }
{
    match start {
        Start::Naming(at, text) => {
            let text = Text::from_bytes(alloc, text)?;
            naming(alloc, room, Name { at, text }, signs)
        }
        Start::Halting(at) => {
            if room <= 1 {
                return Err(Stop::Stuck(here.len()));
            }
            halting(alloc, room, at, signs)
        }
        Start::Branching(at) => {
            if room <= 1 {
                return Err(Stop::Stuck(here.len()));
            }
            branching(alloc, room, at, signs)
        }
    }
}

/// `if e then stmts endif ;`, or with `else stmts` before `endif`, behind its first symbol.
#[cycle(statements)]
fn branching<'t, 'a>(
    alloc: Global,
    room: usize,
    at: u32,
    signs: &'t [Sign<'a>],
) -> Result<(Stmt, &'t [Sign<'a>]), Stop>
    requires some { 2 ≤ room }
    requires few { room ≤ 200 }
    ensures says { Says (λ x. Found (stmt x.0) (map seen x.1.now)) result (λ n ss. spec.branching (climb n) (spec.statements n) room at ss) (map seen signs.now) }
    ensures shorter { IfOk result (λ x. length x.1.now < length signs.now) }
{
    let (c, then_at, rest) = closed(alloc, room - 1, b"then", signs)?;
    let (c, (stmts, other, end, semicolon, rest)) = kept(c, branches(alloc, room - 1, rest))?;
    Ok((Stmt::If(at, c, then_at, stmts, other, end, semicolon), rest))
}

/// `stmts endif ;`, or with `else stmts` before `endif`, of statements each of which is at most so deep.
#[cycle(statements)]
fn branches<'t, 'a>(
    alloc: Global,
    room: usize,
    signs: &'t [Sign<'a>],
) -> Result<
    (
        Items<Stmt>,
        Option<(u32, Items<Stmt>)>,
        u32,
        u32,
        &'t [Sign<'a>],
    ),
    Stop,
>
    requires some { 1 ≤ room }
    requires few { room ≤ 200 }
    ensures says { Says (λ x. Found (block x.0, (option_map (λ y. (y.0, block y.1)) x.1, (x.2, x.3))) (map seen x.4.now)) result (spec_of.branches room) (map seen signs.now) }
    ensures shorter { IfOk result (λ x. length x.4.now < length signs.now) }
{
    let (stmts, rest) = statements(alloc, room, signs)?;
    let (other, rest) = alternative(alloc, room, rest)?;
    let (end, semicolon, rest) = ending(rest)?;
    Ok((stmts, other, end, semicolon, rest))
}

/// `else stmts`, of statements each of which is at most so deep, where `else` is in front.
#[cycle(statements)]
fn alternative<'t, 'a>(
    alloc: Global,
    room: usize,
    signs: &'t [Sign<'a>],
) -> Result<(Option<(u32, Items<Stmt>)>, &'t [Sign<'a>]), Stop>
    requires some { 1 ≤ room }
    requires few { room ≤ 200 }
    ensures says { Says (λ x. Found (option_map (λ y. (y.0, block y.1)) x.0) (map seen x.1.now)) result (optional (codes "else") (block_of room)) (map seen signs.now) }
    ensures shorter { IfOk result (λ x. length x.1.now ≤ length signs.now) }
{
    match behind(b"else", signs) {
        Some((at, rest)) => {
            let (stmts, rest) = statements(alloc, room, rest)?;
            Ok((Some((at, stmts)), rest))
        }
        None => Ok((None, signs)),
    }
}

/// `endif ;`.
fn ending<'t, 'a>(signs: &'t [Sign<'a>]) -> Result<(u32, u32, &'t [Sign<'a>]), Stop>
    ensures says { Says (λ x. Found (x.0, x.1) (map seen x.2.now)) result spec_of.ending (map seen signs.now) }
    ensures shorter { IfOk result (λ x. length x.2.now < length signs.now) }
{
    let (end, rest) = mark(b"endif", signs)?;
    let (semicolon, rest) = mark(b";", rest)?;
    Ok((end, semicolon, rest))
}

/// What begins with a name: a part's action, or an assignment.
fn naming<'t, 'a>(
    alloc: Global,
    room: usize,
    name: Name,
    signs: &'t [Sign<'a>],
) -> Result<(Stmt, &'t [Sign<'a>]), Stop>
    requires some { 1 ≤ room }
    requires few { room ≤ 200 }
    ensures says { Says (λ x. Found (stmt x.0) (map seen x.1.now)) result (λ n ss. spec.naming (climb n) room name ss (marks.behind (codes ".") ss)) (map seen signs.now) }
    ensures shorter { IfOk result (λ x. length x.1.now < length signs.now) }
{
    match behind(b".", signs) {
        Some((dot, rest)) => part(name, dot, rest),
        None => placed(alloc, room, name, signs),
    }
}

/// `NAME . action ;`, behind the dot.
fn part<'t, 'a>(name: Name, dot: u32, signs: &'t [Sign<'a>]) -> Result<(Stmt, &'t [Sign<'a>]), Stop>
    ensures says { Says (λ x. Found (stmt x.0) (map seen x.1.now)) result (λ n ss. spec.part name dot ss) (map seen signs.now) }
    ensures shorter { IfOk result (λ x. length x.1.now < length signs.now) }
{
    let (at, rest) = mark(b"action", signs)?;
    let (semicolon, rest) = mark(b";", rest)?;
    Ok((Stmt::Part(name, dot, at, semicolon), rest))
}

/// What goes on from the name of a place: an index if there is one, and the assignment.
fn placed<'t, 'a>(
    alloc: Global,
    room: usize,
    name: Name,
    signs: &'t [Sign<'a>],
) -> Result<(Stmt, &'t [Sign<'a>]), Stop>
    requires some { 1 ≤ room }
    requires few { room ≤ 200 }
    ensures says { Says (λ x. Found (stmt x.0) (map seen x.1.now)) result (λ n ss. spec.place (climb n) room name ss (marks.behind (codes "[") ss)) (map seen signs.now) }
    ensures shorter { IfOk result (λ x. length x.1.now < length signs.now) }
{
    match behind(b"[", signs) {
        Some((opening, rest)) => indexed(alloc, room, name, opening, signs, rest),
        None => assignment(alloc, room, Place { name, index: None }, signs),
    }
}

/// `e ] = e ;`, behind a name and an opening bracket; `here` are the symbols from the bracket on.
fn indexed<'t, 'a>(
    alloc: Global,
    room: usize,
    name: Name,
    opening: u32,
    here: &[Sign<'a>],
    signs: &'t [Sign<'a>],
) -> Result<(Stmt, &'t [Sign<'a>]), Stop>
    requires some { 1 ≤ room }
    requires few { room ≤ 200 }
    ensures says { Says (λ x. Found (stmt x.0) (map seen x.1.now)) result (λ n ss. spec.place (climb n) room name (map seen here.now) (Some (opening, ss))) (map seen signs.now) }
    ensures shorter { IfOk result (λ x. length x.1.now < length signs.now) }
{
    let below = room - 1;
    if below <= 1 {
        return Err(Stop::Stuck(here.len()));
    }
    let (index, closing, rest) = closed(alloc, below - 1, b"]", signs)?;
    let place = Place {
        name,
        index: Some((opening, index, closing)),
    };
    assignment(alloc, room, place, rest)
}

/// `= e ;`, behind a place.
fn assignment<'t, 'a>(
    alloc: Global,
    room: usize,
    place: Place,
    signs: &'t [Sign<'a>],
) -> Result<(Stmt, &'t [Sign<'a>]), Stop>
    requires some { 1 ≤ room }
    requires few { room ≤ 200 }
    ensures says { Says (λ x. Found (stmt x.0) (map seen x.1.now)) result (λ n ss. spec.assignment (climb n) room place.name (index place.index) ss) (map seen signs.now) }
    ensures shorter { IfOk result (λ x. length x.1.now < length signs.now) }
{
    let (place, (at, e, semicolon, rest)) = kept(place, assigned(alloc, room, signs))?;
    Ok((Stmt::Assign(place, at, e, semicolon), rest))
}

/// `= e ;`: the places of its two marks, and the expression.
fn assigned<'t, 'a>(
    alloc: Global,
    room: usize,
    signs: &'t [Sign<'a>],
) -> Result<(u32, Expr, u32, &'t [Sign<'a>]), Stop>
    requires some { 1 ≤ room }
    requires few { room ≤ 200 }
    ensures says { Says (λ x. Found (x.0, (formula x.1, x.2)) (map seen x.3.now)) result (equals room) (map seen signs.now) }
    ensures shorter { IfOk result (λ x. length x.3.now < length signs.now) }
{
    if room <= 1 {
        return Err(Stop::Stuck(signs.len()));
    }
    let (at, rest) = mark(b"=", signs)?;
    let (e, semicolon, rest) = closed(alloc, room - 1, b";", rest)?;
    Ok((at, e, semicolon, rest))
}

/// `halt ( e ) ;`, behind its first symbol.
fn halting<'t, 'a>(
    alloc: Global,
    room: usize,
    at: u32,
    signs: &'t [Sign<'a>],
) -> Result<(Stmt, &'t [Sign<'a>]), Stop>
    requires some { 2 ≤ room }
    requires few { room ≤ 200 }
    ensures says { Says (λ x. Found (stmt x.0) (map seen x.1.now)) result (λ n ss. spec.halting (climb n) room at ss) (map seen signs.now) }
    ensures shorter { IfOk result (λ x. length x.1.now < length signs.now) }
{
    let (opening, rest) = mark(b"(", signs)?;
    let (e, closing, rest) = closed(alloc, room - 1, b")", rest)?;
    let (e, (semicolon, rest)) = kept(e, mark(b";", rest))?;
    Ok((Stmt::Halt(at, opening, e, closing, semicolon), rest))
}

/// An expression that is at most so deep, and this keyword or mark behind it.
fn closed<'t, 'a>(
    alloc: Global,
    room: usize,
    text: &[u8],
    signs: &'t [Sign<'a>],
) -> Result<(Expr, u32, &'t [Sign<'a>]), Stop>
    requires some { 1 ≤ room }
    requires few { room ≤ 200 }
    ensures says { Says (λ x. Found (formula x.0, x.1) (map seen x.2.now)) result (expression_of room >>> sign text.now) (map seen signs.now) }
    ensures shorter { IfOk result (λ x. length x.2.now < length signs.now) }
{
    let (e, rest) = whole(alloc, room, signs)?;
    let (at, rest) = mark(text, rest)?;
    Ok((e, at, rest))
}

/// What was read before, with what is read behind it.
fn kept<T: Drop, U>(before: T, behind: Result<U, Stop>) -> Result<(T, U), Stop>
    ensures { MatchResult result (λ x. (x.0 ≡ before) × (behind ≡ Ok x.1)) (λ stop. behind ≡ Err stop) }
{
    match behind {
        Ok(found) => Ok((before, found)),
        Err(stop) => Err(stop),
    }
}
