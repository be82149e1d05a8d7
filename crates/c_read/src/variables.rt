//! Global variables, from symbols.
ghost use Rattle.std.specs.Prelude.{◌≡◌, ◌<◌, ◌≤◌, length, map, IfOk, codes};
ghost use Rattle.std.specs.Option.{option_map};
ghost use Rattle.readings.specs.Reading.{Found};
ghost use Rattle.readings.specs.Readings.{◌>>>◌, optional, sign};
ghost use Rattle.readings.specs.Seen.{seen, Says};
ghost use Rattle.c_tree.specs.Items as tree;
ghost use Rattle.c_grammar.specs.Globals as spec;
ghost use Rattle.c_grammar.specs.Until.{until};
ghost use Rattle.c_grammar.specs.Programs.{variables_read};
ghost use Rattle.c_read.specs.Seen.{listed_of};

use c_statement::{name, number};
use c_tree::{GVar, Global as CGlobal, Name, SNum, TypeWord, Vars};
use readings::{Sign, Stop, behind, mark};
use sqlite_items::Items;
use std::alloc::Global;

/// The initial values of an array: the first, each further one behind its comma, and the braces about them.
#[derive(Drop)]
pub struct Listed {
    pub opening: u32,
    pub first: SNum,
    pub rest: Items<(u32, SNum)>,
    pub closing: u32,
}

/// Global variables behind `int NAME`, the word being at this place.
pub fn variables<'t, 'a>(
    alloc: Global,
    at: u32,
    name: Name,
    signs: &'t [Sign<'a>],
) -> Result<(CGlobal, &'t [Sign<'a>]), Stop>
    ensures says { Says (λ x. Found (tree.item x.0) (map seen x.1.now)) result (variables_read at name) (map seen signs.now) }
    ensures shorter { IfOk result (λ x. length x.1.now < length signs.now) }
{
    let (first, rest) = variable_behind(alloc, name, signs)?;
    let (others, semicolon, rest) = further_variables(alloc, rest)?;
    let vars = Vars {
        word: TypeWord::Int(at),
        first,
        rest: others,
        semicolon,
    };
    Ok((CGlobal::Vars(vars), rest))
}

/// Further variables, each behind its comma, and a semicolon.
fn further_variables<'t, 'a>(
    alloc: Global,
    signs: &'t [Sign<'a>],
) -> Result<(Items<(u32, GVar)>, u32, &'t [Sign<'a>]), Stop>
    ensures says { Says (λ x. Found (x.0, x.1) (map seen x.2.now)) result spec.further_globals (map seen signs.now) }
    ensures shorter { IfOk result (λ x. length x.2.now < length signs.now) }
{
    let mut found = Items::new(alloc);
    // all of them, by a call, since each turn replaces them by what a call gives
    let (_, mut rest) = signs.split_at(0);
    loop {
        if let Some((semicolon, after)) = behind(b";", rest) {
            return Ok((found, semicolon, after));
        }
        let (comma, v, after) = further_variable(alloc, rest)?;
        found.push((comma, v))?;
        rest = after;
    }
}

/// A variable behind its comma.
fn further_variable<'t, 'a>(
    alloc: Global,
    signs: &'t [Sign<'a>],
) -> Result<(u32, GVar, &'t [Sign<'a>]), Stop>
    ensures says { Says (λ x. Found (x.0, x.1) (map seen x.2.now)) result (sign (codes ",") >>> spec.global_variable) (map seen signs.now) }
    ensures shorter { IfOk result (λ x. length x.2.now < length signs.now) }
{
    let (comma, rest) = mark(b",", signs)?;
    let (v, rest) = variable(alloc, rest)?;
    Ok((comma, v, rest))
}

/// A global variable.
fn variable<'t, 'a>(alloc: Global, signs: &'t [Sign<'a>]) -> Result<(GVar, &'t [Sign<'a>]), Stop>
    ensures says { Says (λ x. Found x.0 (map seen x.1.now)) result spec.global_variable (map seen signs.now) }
    ensures shorter { IfOk result (λ x. length x.1.now < length signs.now) }
{
    let (name, rest) = name(alloc, signs)?;
    variable_behind(alloc, name, rest)
}

/// What stands behind the name of a global variable.
fn variable_behind<'t, 'a>(
    alloc: Global,
    name: Name,
    signs: &'t [Sign<'a>],
) -> Result<(GVar, &'t [Sign<'a>]), Stop>
    ensures says { Says (λ x. Found x.0 (map seen x.1.now)) result (spec.global_behind name) (map seen signs.now) }
    ensures shorter { IfOk result (λ x. length x.1.now ≤ length signs.now) }
{
    match behind(b"[", signs) {
        Some((opening, rest)) => array(alloc, name, opening, rest),
        None => {
            let (initial, rest) = initial(signs)?;
            Ok((GVar::Scalar(name, initial), rest))
        }
    }
}

/// `= n`, or nothing.
fn initial<'t, 'a>(signs: &'t [Sign<'a>]) -> Result<(Option<(u32, SNum)>, &'t [Sign<'a>]), Stop>
    ensures says { Says (λ x. Found x.0 (map seen x.1.now)) result (optional (codes "=") spec.snum) (map seen signs.now) }
    ensures shorter { IfOk result (λ x. length x.1.now ≤ length signs.now) }
{
    match behind(b"=", signs) {
        Some((at, rest)) => {
            let (value, rest) = value(rest)?;
            Ok((Some((at, value)), rest))
        }
        None => Ok((None, signs)),
    }
}

/// An initial value.
fn value<'t, 'a>(signs: &'t [Sign<'a>]) -> Result<(SNum, &'t [Sign<'a>]), Stop>
    ensures says { Says (λ x. Found x.0 (map seen x.1.now)) result spec.snum (map seen signs.now) }
    ensures shorter { IfOk result (λ x. length x.1.now < length signs.now) }
{
    match behind(b"-", signs) {
        Some((at, rest)) => {
            let (number, rest) = number(rest)?;
            let value = SNum {
                minus: Some(at),
                number,
            };
            Ok((value, rest))
        }
        None => {
            let (number, rest) = number(signs)?;
            let value = SNum {
                minus: None,
                number,
            };
            Ok((value, rest))
        }
    }
}

/// `n ]`, with initial values or without, behind `NAME [`.
fn array<'t, 'a>(
    alloc: Global,
    name: Name,
    opening: u32,
    signs: &'t [Sign<'a>],
) -> Result<(GVar, &'t [Sign<'a>]), Stop>
    ensures says { Says (λ x. Found x.0 (map seen x.1.now)) result (spec.global_array name opening) (map seen signs.now) }
    ensures shorter { IfOk result (λ x. length x.1.now < length signs.now) }
{
    let (number, rest) = number(signs)?;
    let (closing, rest) = mark(b"]", rest)?;
    let (initials, rest) = initials(alloc, rest)?;
    Ok((
        GVar::Array(name, opening, number, closing, row(initials)),
        rest,
    ))
}

/// The initial values in one row, as a tree has them.
fn row(initials: Option<(u32, Listed)>) -> Option<(u32, u32, SNum, Items<(u32, SNum)>, u32)>
    ensures { result ≡ spec.row (option_map (λ x. (x.0, listed_of x.1)) initials) }
{
    let (at, listed) = initials?;
    Some((
        at,
        listed.opening,
        listed.first,
        listed.rest,
        listed.closing,
    ))
}

/// `= { n , n }`, or nothing.
fn initials<'t, 'a>(
    alloc: Global,
    signs: &'t [Sign<'a>],
) -> Result<(Option<(u32, Listed)>, &'t [Sign<'a>]), Stop>
    ensures says { Says (λ x. Found (option_map (λ y. (y.0, listed_of y.1)) x.0) (map seen x.1.now)) result (optional (codes "=") spec.listed) (map seen signs.now) }
    ensures shorter { IfOk result (λ x. length x.1.now ≤ length signs.now) }
{
    match behind(b"=", signs) {
        Some((at, rest)) => {
            let (listed, rest) = listing(alloc, rest)?;
            Ok((Some((at, listed)), rest))
        }
        None => Ok((None, signs)),
    }
}

/// `{ n , n }`.
fn listing<'t, 'a>(alloc: Global, signs: &'t [Sign<'a>]) -> Result<(Listed, &'t [Sign<'a>]), Stop>
    ensures says { Says (λ x. Found (listed_of x.0) (map seen x.1.now)) result spec.listed (map seen signs.now) }
    ensures shorter { IfOk result (λ x. length x.1.now < length signs.now) }
{
    let (opening, rest) = mark(b"{", signs)?;
    let (first, rest) = value(rest)?;
    let (others, closing, rest) = further_values(alloc, rest)?;
    let listed = Listed {
        opening,
        first,
        rest: others,
        closing,
    };
    Ok((listed, rest))
}

/// Further initial values, each behind its comma, and the second brace.
fn further_values<'t, 'a>(
    alloc: Global,
    signs: &'t [Sign<'a>],
) -> Result<(Items<(u32, SNum)>, u32, &'t [Sign<'a>]), Stop>
    ensures says { Says (λ x. Found (x.0, x.1) (map seen x.2.now)) result (until (codes "}") (sign (codes ",") >>> spec.snum)) (map seen signs.now) }
    ensures shorter { IfOk result (λ x. length x.2.now < length signs.now) }
{
    let mut found = Items::new(alloc);
    // all of them, by a call, since each turn replaces them by what a call gives
    let (_, mut rest) = signs.split_at(0);
    loop {
        if let Some((closing, after)) = behind(b"}", rest) {
            return Ok((found, closing, after));
        }
        let (comma, value, after) = further_value(rest)?;
        found.push((comma, value))?;
        rest = after;
    }
}

/// An initial value behind its comma.
fn further_value<'t, 'a>(signs: &'t [Sign<'a>]) -> Result<(u32, SNum, &'t [Sign<'a>]), Stop>
    ensures says { Says (λ x. Found (x.0, x.1) (map seen x.2.now)) result (sign (codes ",") >>> spec.snum) (map seen signs.now) }
    ensures shorter { IfOk result (λ x. length x.2.now < length signs.now) }
{
    let (comma, rest) = mark(b",", signs)?;
    let (value, rest) = value(rest)?;
    Ok((comma, value, rest))
}
