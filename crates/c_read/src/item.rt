//! Globals, from symbols.
ghost use Rattle.std.specs.Prelude.{◌≡◌, ◌<◌, ◌≤◌, length, map, IfOk, codes};
ghost use Rattle.std.specs.Option.{option_map};
ghost use Rattle.readings.specs.Reading.{Found, looked_up};
ghost use Rattle.readings.specs.Seen.{seen, Says};
ghost use Rattle.c_grammar.specs.Programs as spec;
ghost use Rattle.c_tree.specs.Items as tree;
ghost use Rattle.c_read.specs.Seen.{opening_of};

use crate::function::function;
use crate::variables::variables;
use c_statement::{fixed, name};
use c_tree::{Global as CGlobal, ResultWord, TypeWord};
use readings::{Sign, Stop, behind, mark};
use std::alloc::Global;

/// What a global begins with.
#[derive(Clone, Copy)]
pub enum Opening {
    Valued,
    Valueless,
}

/// A global.
pub fn item<'t, 'a>(alloc: Global, signs: &'t [Sign<'a>]) -> Result<(CGlobal, &'t [Sign<'a>]), Stop>
    ensures says { Says (λ x. Found (tree.item x.0) (map seen x.1.now)) result (spec.item_read spec.block_room) (map seen signs.now) }
    ensures shorter { IfOk result (λ x. length x.1.now < length signs.now) }
{
    let Some((at, text, rest)) = fixed(signs) else {
        return Err(Stop::Stuck(signs.len()));
    };
    match begun_by(text) {
        Some(Opening::Valued) => valued(alloc, at, rest),
        Some(Opening::Valueless) => valueless(alloc, at, rest),
        None => Err(Stop::Stuck(signs.len())),
    }
}

/// What this keyword begins.
fn begun_by(text: &[u8]) -> Option<Opening>
    ensures { option_map opening_of result ≡ looked_up spec.item_starts text.now }
{
    if text == b"int".as_slice() {
        Some(Opening::Valued)
    } else if text == b"void".as_slice() {
        Some(Opening::Valueless)
    } else {
        None
    }
}

/// Variables or a function, behind `int` at this place.
fn valued<'t, 'a>(
    alloc: Global,
    at: u32,
    signs: &'t [Sign<'a>],
) -> Result<(CGlobal, &'t [Sign<'a>]), Stop>
    ensures says { Says (λ x. Found (tree.item x.0) (map seen x.1.now)) result (spec.behind_item spec.block_room spec.Valued at) (map seen signs.now) }
    ensures shorter { IfOk result (λ x. length x.1.now < length signs.now) }
{
    let (name, rest) = name(alloc, signs)?;
    match behind(b"(", rest) {
        Some((opening, rest)) => {
            let word = ResultWord::Type(TypeWord::Int(at));
            function(alloc, word, name, opening, rest)
        }
        None => variables(alloc, at, name, rest),
    }
}

/// A function, behind `void` at this place.
fn valueless<'t, 'a>(
    alloc: Global,
    at: u32,
    signs: &'t [Sign<'a>],
) -> Result<(CGlobal, &'t [Sign<'a>]), Stop>
    ensures says { Says (λ x. Found (tree.item x.0) (map seen x.1.now)) result (spec.valueless spec.block_room at) (map seen signs.now) }
    ensures shorter { IfOk result (λ x. length x.1.now < length signs.now) }
{
    let (name, rest) = name(alloc, signs)?;
    let (opening, rest) = mark(b"(", rest)?;
    function(alloc, ResultWord::Void(at), name, opening, rest)
}
