//! Items, from symbols.
ghost use Rattle.std.specs.Prelude.{◌≡◌, ◌<◌, ◌≤◌, length, map, IfOk};
ghost use Rattle.std.specs.Option.{option_map};
ghost use Rattle.readings.specs.Reading.{Found, looked_up};
ghost use Rattle.nml_grammar.specs.ReadingItems.{behind_opening, openings};
ghost use Rattle.nml_read.specs.SeenWords.{seen_opening};
ghost use Rattle.readings.specs.Seen.{seen, Says, Comes};
ghost use Rattle.nml_grammar.specs.ReadingItems as items;

use crate::rules::{mode, op};
use crate::types::type_read;
use nml_statement::{name, number, size};
use nml_tree::{Item, Port, PortWord, Storage, StorageWord};
use readings::{Sign, Stop, behind, mark};
use std::alloc::Global;

/// What an item begins with.
#[derive(Clone, Copy)]
enum Opening {
    Let,
    Type,
    Mem,
    Reg,
    Trn,
    Inp,
    Out,
    Op,
    Mode,
}

/// An item.
pub fn item<'t, 'a>(alloc: Global, signs: &'t [Sign<'a>]) -> Result<(Item, &'t [Sign<'a>]), Stop>
    ensures says { Says (λ x. Found x.0 (map seen x.1.now)) result items.item (map seen signs.now) }
    ensures shorter { IfOk result (λ x. length x.1.now < length signs.now) }
{
    let Some((first, rest)) = signs.split_first() else {
        return Err(Stop::Stuck(signs.len()));
    };
    match *first {
        Sign::Fixed(at, text) => match opening_of(text) {
            Some(opening) => opened(alloc, opening, at, rest),
            None => Err(Stop::Stuck(signs.len())),
        },
        Sign::Named(_, _) => Err(Stop::Stuck(signs.len())),
        Sign::Number(_, _) => Err(Stop::Stuck(signs.len())),
        Sign::Quoted(_, _) => Err(Stop::Stuck(signs.len())),
    }
}

/// What begins with this keyword.
fn opening_of(text: &[u8]) -> Option<Opening>
    ensures { option_map seen_opening result ≡ looked_up openings text.now }
{
    if text == b"let".as_slice() {
        Some(Opening::Let)
    } else if text == b"type".as_slice() {
        Some(Opening::Type)
    } else if text == b"mem".as_slice() {
        Some(Opening::Mem)
    } else if text == b"reg".as_slice() {
        Some(Opening::Reg)
    } else if text == b"trn".as_slice() {
        Some(Opening::Trn)
    } else if text == b"inp".as_slice() {
        Some(Opening::Inp)
    } else if text == b"out".as_slice() {
        Some(Opening::Out)
    } else if text == b"op".as_slice() {
        Some(Opening::Op)
    } else if text == b"mode".as_slice() {
        Some(Opening::Mode)
    } else {
        None
    }
}

/// An item behind its keyword, which stands at this place.
fn opened<'t, 'a>(
    alloc: Global,
    opening: Opening,
    at: u32,
    signs: &'t [Sign<'a>],
) -> Result<(Item, &'t [Sign<'a>]), Stop>
    ensures says { Says (λ x. Found x.0 (map seen x.1.now)) result (behind_opening (seen_opening opening) at) (map seen signs.now) }
    ensures shorter { IfOk result (λ x. length x.1.now < length signs.now) }
{
    match opening {
        Opening::Let => let_item(alloc, at, signs),
        Opening::Type => type_item(alloc, at, signs),
        Opening::Mem => storage(alloc, StorageWord::Mem(at), signs),
        Opening::Reg => storage(alloc, StorageWord::Reg(at), signs),
        Opening::Trn => port(alloc, PortWord::Trn(at), signs),
        Opening::Inp => port(alloc, PortWord::Inp(at), signs),
        Opening::Out => port(alloc, PortWord::Out(at), signs),
        Opening::Op => op(alloc, at, signs),
        Opening::Mode => mode(alloc, at, signs),
    }
}

/// `NAME = number`, behind `let` at this place.
fn let_item<'t, 'a>(
    alloc: Global,
    at: u32,
    signs: &'t [Sign<'a>],
) -> Result<(Item, &'t [Sign<'a>]), Stop>
    ensures says { Says (λ x. Found x.0 (map seen x.1.now)) result (items.let_item at) (map seen signs.now) }
    ensures shorter { IfOk result (λ x. length x.1.now < length signs.now) }
{
    let (name, rest) = name(alloc, signs)?;
    let (equals, rest) = mark(b"=", rest)?;
    let (minus, rest) = minus(rest);
    let (number, rest) = number(rest)?;
    Ok((Item::Let(at, name, equals, minus, number), rest))
}

/// A minus, where one is in front.
fn minus<'t, 'a>(signs: &'t [Sign<'a>]) -> (Option<u32>, &'t [Sign<'a>])
    ensures comes { Comes items.minus (map seen signs.now) (Found result.0 (map seen result.1.now)) }
    ensures shorter { length result.1.now ≤ length signs.now }
{
    match behind(b"-", signs) {
        Some((at, rest)) => (Some(at), rest),
        None => (None, signs),
    }
}

/// `NAME = type`, behind `type` at this place.
fn type_item<'t, 'a>(
    alloc: Global,
    at: u32,
    signs: &'t [Sign<'a>],
) -> Result<(Item, &'t [Sign<'a>]), Stop>
    ensures says { Says (λ x. Found x.0 (map seen x.1.now)) result (items.type_item at) (map seen signs.now) }
    ensures shorter { IfOk result (λ x. length x.1.now < length signs.now) }
{
    let (name, rest) = name(alloc, signs)?;
    let (equals, rest) = mark(b"=", rest)?;
    let (ty, rest) = type_read(alloc, rest)?;
    Ok((Item::Type(at, name, equals, ty), rest))
}

/// `NAME [ size , type ]`, behind its word.
fn storage<'t, 'a>(
    alloc: Global,
    word: StorageWord,
    signs: &'t [Sign<'a>],
) -> Result<(Item, &'t [Sign<'a>]), Stop>
    ensures says { Says (λ x. Found x.0 (map seen x.1.now)) result (items.storage word) (map seen signs.now) }
    ensures shorter { IfOk result (λ x. length x.1.now < length signs.now) }
{
    let (name, rest) = name(alloc, signs)?;
    let (opening, rest) = mark(b"[", rest)?;
    let (size, rest) = size(alloc, rest)?;
    let (comma, rest) = mark(b",", rest)?;
    let (ty, rest) = type_read(alloc, rest)?;
    let (closing, rest) = mark(b"]", rest)?;
    let storage = Storage {
        word,
        name,
        opening,
        size,
        comma,
        ty,
        closing,
    };
    Ok((Item::Storage(storage), rest))
}

/// `NAME [ type ]`, behind its word.
fn port<'t, 'a>(
    alloc: Global,
    word: PortWord,
    signs: &'t [Sign<'a>],
) -> Result<(Item, &'t [Sign<'a>]), Stop>
    ensures says { Says (λ x. Found x.0 (map seen x.1.now)) result (items.port word) (map seen signs.now) }
    ensures shorter { IfOk result (λ x. length x.1.now < length signs.now) }
{
    let (name, rest) = name(alloc, signs)?;
    let (opening, rest) = mark(b"[", rest)?;
    let (ty, rest) = type_read(alloc, rest)?;
    let (closing, rest) = mark(b"]", rest)?;
    let port = Port {
        word,
        name,
        opening,
        ty,
        closing,
    };
    Ok((Item::Port(port), rest))
}
