//! Blocks and their statements, from symbols.
ghost use Rattle.std.specs.Prelude.{◌≡◌, ◌≤◌, ◌<◌, ◌-◌, length, map, IfOk, codes};
ghost use Rattle.std.specs.Option.{option_map};
ghost use Rattle.c_tree.specs.Formula.{formula};
ghost use Rattle.c_tree.specs.Statement.{body, Then};
ghost use Rattle.c_tree.specs.Statement as tree;
ghost use Rattle.readings.specs.Reading.{Found, looked_up};
ghost use Rattle.readings.specs.Readings.{◌>>>◌, made, optional, sign, worded_from};
ghost use Rattle.readings.specs.Seen.{seen, Says};
ghost use Rattle.c_grammar.specs.Statements.{closed_body};
ghost use Rattle.c_grammar.specs.ReadingStatements as spec;
ghost use Rattle.c_statement.specs.Seen.{before, boxed_of, counted_of, header_of, leaf_of, named_within, node_of, part_within, statement_behind};

use crate::act::simple_behind;
use crate::closed::{condition, ended_value, kept};
use crate::declaration::variables_declared;
use crate::front::{fixed, name};
use crate::header::{Header, Later, three_parts};
use crate::start::{Leaf, Node, leaf_begun, node_begun};
use c_tree::{Block, Expr, Part, Stmt};
use readings::{Sign, Stop, behind, mark};
use sqlite_items::{Boxed, Items};
use std::alloc::Global;

/// What stands between the braces of a block that is at most `room` nodes deep, from 1 to 200, the place of its second brace, and what stands
/// behind it.
///
/// `Stuck` tells how many symbols are left where one fits nothing, or none is where one is wanted; a node that is one too deep fits nothing.
/// The other error is want of memory. The grammar is this project's own. It calls itself as deep as statements stand in statements.
#[cycle(statements)]
pub fn block<'t, 'a>(
    alloc: Global,
    room: usize,
    signs: &'t [Sign<'a>],
) -> Result<(Items<Part>, u32, &'t [Sign<'a>]), Stop>
    requires some { 1 ≤ room }
    requires few { room ≤ 200 }
    ensures says { Says (λ x. Found (body x.0, x.1) (map seen x.2.now)) result (spec.block_body room) (map seen signs.now) }
    ensures shorter { IfOk result (λ x. length x.2.now < length signs.now) }
{
    if room == 1 {
        let (closing, rest) = mark(b"}", signs)?;
        return Ok((Items::new(alloc), closing, rest));
    }
    parts(alloc, room - 1, signs)
}

/// Declarations and statements, each of which is at most so deep, and the second brace.
#[cycle(statements)]
fn parts<'t, 'a>(
    alloc: Global,
    room: usize,
    signs: &'t [Sign<'a>],
) -> Result<(Items<Part>, u32, &'t [Sign<'a>]), Stop>
    requires some { 1 ≤ room }
    requires few { room ≤ 200 }
    ensures says { Says (λ x. Found (body x.0, x.1) (map seen x.2.now)) result (closed_body (part_within room)) (map seen signs.now) }
    ensures shorter { IfOk result (λ x. length x.2.now < length signs.now) }
{
    let mut found = Items::new(alloc);
    // all of them, by a call, since each turn replaces them by what a call gives
    let (_, mut rest) = signs.split_at(0);
    loop {
        if let Some((closing, after)) = behind(b"}", rest) {
            return Ok((found, closing, after));
        }
        let (part, after) = part(alloc, room, rest)?;
        found.push(part)?;
        rest = after;
    }
}

/// A declaration or a statement, where there is room for one.
#[cycle(statements)]
fn part<'t, 'a>(
    alloc: Global,
    room: usize,
    signs: &'t [Sign<'a>],
) -> Result<(Part, &'t [Sign<'a>]), Stop>
    requires some { 1 ≤ room }
    requires few { room ≤ 200 }
    ensures says { Says (λ x. Found (tree.part x.0) (map seen x.1.now)) result (made before (part_within room)) (map seen signs.now) }
    ensures shorter { IfOk result (λ x. length x.1.now < length signs.now) }
{
    if room == 1 {
        return stating(alloc, room, signs);
    }
    match behind(b"int", signs) {
        Some((at, rest)) => {
            let (decl, rest) = variables_declared(alloc, room - 2, at, rest)?;
            Ok((Part::Decl(decl), rest))
        }
        None => stating(alloc, room, signs),
    }
}

/// A statement as a part of a block.
#[cycle(statements)]
fn stating<'t, 'a>(
    alloc: Global,
    room: usize,
    signs: &'t [Sign<'a>],
) -> Result<(Part, &'t [Sign<'a>]), Stop>
    requires some { 1 ≤ room }
    requires few { room ≤ 200 }
    ensures says { Says (λ x. Found (tree.part x.0) (map seen x.1.now)) result (made (λ s rest. Then s rest) (spec.statement_read room)) (map seen signs.now) }
    ensures shorter { IfOk result (λ x. length x.1.now < length signs.now) }
{
    let (stmt, rest) = statement(alloc, room, signs)?;
    Ok((Part::Stmt(stmt), rest))
}

/// A statement that is at most so deep.
#[cycle(statements)]
fn statement<'t, 'a>(
    alloc: Global,
    room: usize,
    signs: &'t [Sign<'a>],
) -> Result<(Stmt, &'t [Sign<'a>]), Stop>
    requires some { 1 ≤ room }
    requires few { room ≤ 200 }
    ensures says { Says (λ x. Found (tree.statement x.0) (map seen x.1.now)) result (spec.statement_read room) (map seen signs.now) }
    ensures shorter { IfOk result (λ x. length x.1.now < length signs.now) }
{
    match fixed(signs) {
        Some((at, text, rest)) => begun(alloc, room - 1, at, text, signs, rest),
        None => named(alloc, room - 1, signs),
    }
}

/// `simple ;`, where there is room for it, with so many nodes below.
fn named<'t, 'a>(
    alloc: Global,
    room: usize,
    signs: &'t [Sign<'a>],
) -> Result<(Stmt, &'t [Sign<'a>]), Stop>
    requires few { room ≤ 200 }
    ensures says { Says (λ x. Found (tree.statement x.0) (map seen x.1.now)) result (named_within room) (map seen signs.now) }
    ensures shorter { IfOk result (λ x. length x.1.now < length signs.now) }
{
    if room == 0 {
        return Err(Stop::Stuck(signs.len()));
    }
    let (name, rest) = name(alloc, signs)?;
    let (simple, rest) = simple_behind(alloc, room - 1, name, rest)?;
    let (simple, (semicolon, rest)) = kept(simple, mark(b";", rest))?;
    Ok((Stmt::Simple(simple, semicolon), rest))
}

/// What begins with this keyword or mark, with so many nodes below; `here` are the symbols from it on.
#[cycle(statements)]
fn begun<'t, 'a>(
    alloc: Global,
    room: usize,
    at: u32,
    text: &[u8],
    here: &[Sign<'a>],
    signs: &'t [Sign<'a>],
) -> Result<(Stmt, &'t [Sign<'a>]), Stop>
    requires few { room < 200 }
    ensures says { Says (λ x. Found (tree.statement x.0) (map seen x.1.now)) result
        (λ n ss. worded_from (statement_behind room) n (map seen here.now) at ss (looked_up (spec.statement_starts room) text.now)) (map seen signs.now) }
    ensures shorter { IfOk result (λ x. length x.1.now ≤ length signs.now) }
{
    if let Some(leaf) = leaf_begun(text) {
        return ended(alloc, room, leaf, at, signs);
    }
    if room == 0 {
        return Err(Stop::Stuck(here.len()));
    }
    match node_begun(text) {
        Some(node) => nested(alloc, room, node, at, signs),
        None => Err(Stop::Stuck(here.len())),
    }
}

/// What stands behind the first symbol of a statement that has no other within it.
fn ended<'t, 'a>(
    alloc: Global,
    room: usize,
    leaf: Leaf,
    at: u32,
    signs: &'t [Sign<'a>],
) -> Result<(Stmt, &'t [Sign<'a>]), Stop>
    requires few { room ≤ 200 }
    ensures says { Says (λ x. Found (tree.statement x.0) (map seen x.1.now)) result (statement_behind room (leaf_of leaf) at) (map seen signs.now) }
    ensures shorter { IfOk result (λ x. length x.1.now ≤ length signs.now) }
{
    match leaf {
        Leaf::Ending => Ok((Stmt::Empty(at), signs)),
        Leaf::Breaking => {
            let (semicolon, rest) = mark(b";", signs)?;
            Ok((Stmt::Break(at, semicolon), rest))
        }
        Leaf::Continuing => {
            let (semicolon, rest) = mark(b";", signs)?;
            Ok((Stmt::Continue(at, semicolon), rest))
        }
        Leaf::Returning => {
            let (e, semicolon, rest) = returned(alloc, room, signs)?;
            Ok((Stmt::Return(at, e, semicolon), rest))
        }
    }
}

/// `;`, or `e ;` where there is room for an expression.
fn returned<'t, 'a>(
    alloc: Global,
    room: usize,
    signs: &'t [Sign<'a>],
) -> Result<(Option<Expr>, u32, &'t [Sign<'a>]), Stop>
    requires few { room ≤ 200 }
    ensures says { Says (λ x. Found (option_map formula x.0, x.1) (map seen x.2.now)) result (spec.ended_expression room) (map seen signs.now) }
    ensures shorter { IfOk result (λ x. length x.2.now < length signs.now) }
{
    if room == 0 {
        let (semicolon, rest) = mark(b";", signs)?;
        return Ok((None, semicolon, rest));
    }
    ended_value(alloc, room, signs)
}

/// What stands behind the first symbol of a statement that may have others within it.
#[cycle(statements)]
fn nested<'t, 'a>(
    alloc: Global,
    room: usize,
    node: Node,
    at: u32,
    signs: &'t [Sign<'a>],
) -> Result<(Stmt, &'t [Sign<'a>]), Stop>
    requires some { 1 ≤ room }
    requires few { room < 200 }
    ensures says { Says (λ x. Found (tree.statement x.0) (map seen x.1.now)) result (statement_behind room (node_of node) at) (map seen signs.now) }
    ensures shorter { IfOk result (λ x. length x.1.now < length signs.now) }
{
    match node {
        Node::Bracing => bracing(alloc, room, at, signs),
        Node::Branching => branching(alloc, room, at, signs),
        Node::Looping => looping(alloc, room, at, signs),
        Node::Repeating => repeating(alloc, room, at, signs),
        Node::Counting => counting(alloc, room, at, signs),
    }
}

/// A block behind its first brace.
#[cycle(statements)]
fn bracing<'t, 'a>(
    alloc: Global,
    room: usize,
    at: u32,
    signs: &'t [Sign<'a>],
) -> Result<(Stmt, &'t [Sign<'a>]), Stop>
    requires some { 1 ≤ room }
    requires few { room < 200 }
    ensures says { Says (λ x. Found (tree.statement x.0) (map seen x.1.now)) result (statement_behind room spec.Bracing at) (map seen signs.now) }
    ensures shorter { IfOk result (λ x. length x.1.now < length signs.now) }
{
    let (parts, closing, rest) = block(alloc, room, signs)?;
    let block = Block {
        opening: at,
        parts,
        closing,
    };
    Ok((Stmt::Block(block), rest))
}

/// `( e ) stmt`, or with `else stmt` behind it, behind `if`.
#[cycle(statements)]
fn branching<'t, 'a>(
    alloc: Global,
    room: usize,
    at: u32,
    signs: &'t [Sign<'a>],
) -> Result<(Stmt, &'t [Sign<'a>]), Stop>
    requires some { 1 ≤ room }
    requires few { room < 200 }
    ensures says { Says (λ x. Found (tree.statement x.0) (map seen x.1.now)) result (statement_behind room spec.Branching at) (map seen signs.now) }
    ensures shorter { IfOk result (λ x. length x.1.now < length signs.now) }
{
    let (opening, c, closing, rest) = condition(alloc, room, signs)?;
    let (c, (then, other, rest)) = kept(c, branches(alloc, room, rest))?;
    Ok((Stmt::If(at, opening, c, closing, then, other), rest))
}

/// `stmt`, or `stmt else stmt`.
#[cycle(statements)]
fn branches<'t, 'a>(
    alloc: Global,
    room: usize,
    signs: &'t [Sign<'a>],
) -> Result<(Boxed<Stmt>, Option<(u32, Boxed<Stmt>)>, &'t [Sign<'a>]), Stop>
    requires some { 1 ≤ room }
    requires few { room < 200 }
    ensures says { Says (λ x. Found (tree.statement x.0, option_map boxed_of x.1) (map seen x.2.now)) result (spec.statement_read room >>> optional (codes "else") (spec.statement_read room)) (map seen signs.now) }
    ensures shorter { IfOk result (λ x. length x.2.now < length signs.now) }
{
    let (then, rest) = inner(alloc, room, signs)?;
    let (other, rest) = alternative(alloc, room, rest)?;
    Ok((then, other, rest))
}

/// `else stmt`, where `else` is in front.
#[cycle(statements)]
fn alternative<'t, 'a>(
    alloc: Global,
    room: usize,
    signs: &'t [Sign<'a>],
) -> Result<(Option<(u32, Boxed<Stmt>)>, &'t [Sign<'a>]), Stop>
    requires some { 1 ≤ room }
    requires few { room < 200 }
    ensures says { Says (λ x. Found (option_map boxed_of x.0) (map seen x.1.now)) result (optional (codes "else") (spec.statement_read room)) (map seen signs.now) }
    ensures shorter { IfOk result (λ x. length x.1.now ≤ length signs.now) }
{
    match behind(b"else", signs) {
        Some((at, rest)) => {
            let (other, rest) = inner(alloc, room, rest)?;
            Ok((Some((at, other)), rest))
        }
        None => Ok((None, signs)),
    }
}

/// `( e ) stmt`, behind `while`.
#[cycle(statements)]
fn looping<'t, 'a>(
    alloc: Global,
    room: usize,
    at: u32,
    signs: &'t [Sign<'a>],
) -> Result<(Stmt, &'t [Sign<'a>]), Stop>
    requires some { 1 ≤ room }
    requires few { room < 200 }
    ensures says { Says (λ x. Found (tree.statement x.0) (map seen x.1.now)) result (statement_behind room spec.Looping at) (map seen signs.now) }
    ensures shorter { IfOk result (λ x. length x.1.now < length signs.now) }
{
    let (opening, c, closing, rest) = condition(alloc, room, signs)?;
    let (c, (inner, rest)) = kept(c, inner(alloc, room, rest))?;
    Ok((Stmt::While(at, opening, c, closing, inner), rest))
}

/// `stmt while ( e ) ;`, behind `do`.
#[cycle(statements)]
fn repeating<'t, 'a>(
    alloc: Global,
    room: usize,
    at: u32,
    signs: &'t [Sign<'a>],
) -> Result<(Stmt, &'t [Sign<'a>]), Stop>
    requires some { 1 ≤ room }
    requires few { room < 200 }
    ensures says { Says (λ x. Found (tree.statement x.0) (map seen x.1.now)) result (statement_behind room spec.Repeating at) (map seen signs.now) }
    ensures shorter { IfOk result (λ x. length x.1.now < length signs.now) }
{
    let (inner, rest) = inner(alloc, room, signs)?;
    let (while_at, opening, c, closing, semicolon, rest) = trial(alloc, room, rest)?;
    let stmt = Stmt::Do(at, inner, while_at, opening, c, closing, semicolon);
    Ok((stmt, rest))
}

/// `while ( e ) ;`.
fn trial<'t, 'a>(
    alloc: Global,
    room: usize,
    signs: &'t [Sign<'a>],
) -> Result<(u32, u32, Expr, u32, u32, &'t [Sign<'a>]), Stop>
    requires some { 1 ≤ room }
    requires few { room ≤ 200 }
    ensures says { Says (λ x. Found (x.0, ((x.1, (formula x.2, x.3)), x.4)) (map seen x.5.now)) result (sign (codes "while") >>> (spec.condition room >>> sign (codes ";"))) (map seen signs.now) }
    ensures shorter { IfOk result (λ x. length x.5.now < length signs.now) }
{
    let (at, rest) = mark(b"while", signs)?;
    let (opening, c, closing, rest) = condition(alloc, room, rest)?;
    let (c, (semicolon, rest)) = kept(c, mark(b";", rest))?;
    Ok((at, opening, c, closing, semicolon, rest))
}

/// `( first ; e ; simple ) stmt`, behind `for`.
#[cycle(statements)]
fn counting<'t, 'a>(
    alloc: Global,
    room: usize,
    at: u32,
    signs: &'t [Sign<'a>],
) -> Result<(Stmt, &'t [Sign<'a>]), Stop>
    requires some { 1 ≤ room }
    requires few { room < 200 }
    ensures says { Says (λ x. Found (tree.statement x.0) (map seen x.1.now)) result (statement_behind room spec.Counting at) (map seen signs.now) }
    ensures shorter { IfOk result (λ x. length x.1.now < length signs.now) }
{
    let (header, rest) = three_parts(alloc, room, signs)?;
    let (header, (inner, rest)) = kept(header, inner(alloc, room, rest))?;
    Ok((counted(at, header, inner), rest))
}

/// The statement of a `for`.
fn counted(at: u32, header: Header, inner: Boxed<Stmt>) -> Stmt
    ensures { tree.statement result ≡ counted_of at (header_of header) (tree.statement inner) }
{
    let Header {
        opening,
        first,
        semicolon,
        later,
    } = header;
    let Later {
        condition,
        second,
        last,
        closing,
    } = later;
    Stmt::For(
        at, opening, first, semicolon, condition, second, last, closing, inner,
    )
}

/// A statement within another.
#[cycle(statements)]
fn inner<'t, 'a>(
    alloc: Global,
    room: usize,
    signs: &'t [Sign<'a>],
) -> Result<(Boxed<Stmt>, &'t [Sign<'a>]), Stop>
    requires some { 1 ≤ room }
    requires few { room < 200 }
    ensures says { Says (λ x. Found (tree.statement x.0) (map seen x.1.now)) result (spec.statement_read room) (map seen signs.now) }
    ensures shorter { IfOk result (λ x. length x.1.now < length signs.now) }
{
    let (stmt, rest) = statement(alloc, room, signs)?;
    Ok((Boxed::new(alloc, stmt)?, rest))
}
