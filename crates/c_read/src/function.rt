//! Functions, from symbols.
ghost use Rattle.std.specs.Prelude.{◌≡◌, ◌<◌, ◌≤◌, length, map, IfOk, codes};
ghost use Rattle.std.specs.Option.{option_map};
ghost use Rattle.readings.specs.Reading.{Found, looked_up};
ghost use Rattle.readings.specs.Readings.{◌>>>◌, sign};
ghost use Rattle.readings.specs.Seen.{seen, Says};
ghost use Rattle.c_tree.specs.Items as tree;
ghost use Rattle.c_grammar.specs.Parameters as spec;
ghost use Rattle.c_grammar.specs.Until.{until};
ghost use Rattle.c_grammar.specs.Programs.{block_room, function_read};
ghost use Rattle.c_grammar.specs.ReadingStatements.{block_body};
ghost use Rattle.c_read.specs.Seen.{braces_of, start_of};

use c_statement::{block, fixed, name, type_word};
use c_tree::{Block, Function, Global as CGlobal, Name, Param, Params, ResultWord, TypeWord};
use readings::{Sign, Stop, behind, mark};
use sqlite_items::Items;
use std::alloc::Global;

/// How many nodes there may be from the block of a function down.
const BLOCK_ROOM: usize = 199;

/// What parameters and the parenthesis behind them begin with.
#[derive(Clone, Copy)]
pub enum Start {
    Closing,
    Empty,
    Typed,
}

/// A function, behind `NAME (`.
pub fn function<'t, 'a>(
    alloc: Global,
    word: ResultWord,
    name: Name,
    opening: u32,
    signs: &'t [Sign<'a>],
) -> Result<(CGlobal, &'t [Sign<'a>]), Stop>
    ensures says { Says (λ x. Found (tree.item x.0) (map seen x.1.now)) result (function_read block_room word name opening) (map seen signs.now) }
    ensures shorter { IfOk result (λ x. length x.1.now < length signs.now) }
{
    let (params, closing, rest) = parameters(alloc, signs)?;
    let (body, rest) = braced(alloc, rest)?;
    let function = Function {
        result: word,
        name,
        opening,
        params,
        closing,
        body,
    };
    Ok((CGlobal::Function(function), rest))
}

/// The block of a function.
fn braced<'t, 'a>(alloc: Global, signs: &'t [Sign<'a>]) -> Result<(Block, &'t [Sign<'a>]), Stop>
    ensures says { Says (λ x. Found (braces_of x.0) (map seen x.1.now)) result (sign (codes "{") >>> block_body block_room) (map seen signs.now) }
    ensures shorter { IfOk result (λ x. length x.1.now < length signs.now) }
{
    let (opening, rest) = mark(b"{", signs)?;
    let (parts, closing, rest) = block(alloc, BLOCK_ROOM, rest)?;
    let block = Block {
        opening,
        parts,
        closing,
    };
    Ok((block, rest))
}

/// No parameters, `void`, or some, up to the closing parenthesis.
fn parameters<'t, 'a>(
    alloc: Global,
    signs: &'t [Sign<'a>],
) -> Result<(Option<Params>, u32, &'t [Sign<'a>]), Stop>
    ensures says { Says (λ x. Found (x.0, x.1) (map seen x.2.now)) result spec.parameters (map seen signs.now) }
    ensures shorter { IfOk result (λ x. length x.2.now < length signs.now) }
{
    let Some((at, text, rest)) = fixed(signs) else {
        return Err(Stop::Stuck(signs.len()));
    };
    match start_begun(text) {
        Some(start) => started(alloc, start, at, rest),
        None => Err(Stop::Stuck(signs.len())),
    }
}

/// What this keyword or mark begins.
fn start_begun(text: &[u8]) -> Option<Start>
    ensures { option_map start_of result ≡ looked_up spec.starts text.now }
{
    if text == b")".as_slice() {
        Some(Start::Closing)
    } else if text == b"void".as_slice() {
        Some(Start::Empty)
    } else if text == b"int".as_slice() {
        Some(Start::Typed)
    } else {
        None
    }
}

/// What stands behind the first symbol, which is at this place.
fn started<'t, 'a>(
    alloc: Global,
    start: Start,
    at: u32,
    signs: &'t [Sign<'a>],
) -> Result<(Option<Params>, u32, &'t [Sign<'a>]), Stop>
    ensures says { Says (λ x. Found (x.0, x.1) (map seen x.2.now)) result (spec.behind_start (start_of start) at) (map seen signs.now) }
    ensures shorter { IfOk result (λ x. length x.2.now ≤ length signs.now) }
{
    match start {
        Start::Closing => Ok((None, at, signs)),
        Start::Empty => {
            let (closing, rest) = mark(b")", signs)?;
            Ok((Some(Params::Void(at)), closing, rest))
        }
        Start::Typed => typed(alloc, at, signs),
    }
}

/// Parameters behind the first `int`, which is at this place.
fn typed<'t, 'a>(
    alloc: Global,
    at: u32,
    signs: &'t [Sign<'a>],
) -> Result<(Option<Params>, u32, &'t [Sign<'a>]), Stop>
    ensures says { Says (λ x. Found (x.0, x.1) (map seen x.2.now)) result (spec.behind_start spec.Typed at) (map seen signs.now) }
    ensures shorter { IfOk result (λ x. length x.2.now < length signs.now) }
{
    let (name, rest) = name(alloc, signs)?;
    let (others, closing, rest) = further_parameters(alloc, rest)?;
    let first = Param {
        word: TypeWord::Int(at),
        name,
    };
    Ok((Some(Params::Named(first, others)), closing, rest))
}

/// Further parameters, each behind its comma, and the closing parenthesis.
fn further_parameters<'t, 'a>(
    alloc: Global,
    signs: &'t [Sign<'a>],
) -> Result<(Items<(u32, Param)>, u32, &'t [Sign<'a>]), Stop>
    ensures says { Says (λ x. Found (x.0, x.1) (map seen x.2.now)) result (until (codes ")") (sign (codes ",") >>> spec.parameter)) (map seen signs.now) }
    ensures shorter { IfOk result (λ x. length x.2.now < length signs.now) }
{
    let mut found = Items::new(alloc);
    // all of them, by a call, since each turn replaces them by what a call gives
    let (_, mut rest) = signs.split_at(0);
    loop {
        if let Some((closing, after)) = behind(b")", rest) {
            return Ok((found, closing, after));
        }
        let (comma, param, after) = further_parameter(alloc, rest)?;
        found.push((comma, param))?;
        rest = after;
    }
}

/// A parameter behind its comma.
fn further_parameter<'t, 'a>(
    alloc: Global,
    signs: &'t [Sign<'a>],
) -> Result<(u32, Param, &'t [Sign<'a>]), Stop>
    ensures says { Says (λ x. Found (x.0, x.1) (map seen x.2.now)) result (sign (codes ",") >>> spec.parameter) (map seen signs.now) }
    ensures shorter { IfOk result (λ x. length x.2.now < length signs.now) }
{
    let (comma, rest) = mark(b",", signs)?;
    let (param, rest) = parameter(alloc, rest)?;
    Ok((comma, param, rest))
}

/// `int NAME`.
fn parameter<'t, 'a>(alloc: Global, signs: &'t [Sign<'a>]) -> Result<(Param, &'t [Sign<'a>]), Stop>
    ensures says { Says (λ x. Found x.0 (map seen x.1.now)) result spec.parameter (map seen signs.now) }
    ensures shorter { IfOk result (λ x. length x.1.now < length signs.now) }
{
    let (word, rest) = type_word(signs)?;
    let (name, rest) = name(alloc, rest)?;
    Ok((Param { word, name }, rest))
}
