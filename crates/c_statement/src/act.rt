//! Simple statements, from symbols.
ghost use Rattle.std.specs.Prelude.{◌≡◌, ◌≤◌, ◌<◌, ◌-◌, length, map, IfOk, IfSome, codes};
ghost use Rattle.std.specs.Option.{option_map};
ghost use Rattle.c_tree.specs.Formula.{formula};
ghost use Rattle.c_tree.specs.Statement.{act, index};
ghost use Rattle.readings.specs.Reading.{Found, looked_up};
ghost use Rattle.readings.specs.Seen.{seen, Says};
ghost use Rattle.c_grammar.specs.Acts as spec;
ghost use Rattle.c_grammar.specs.Declarations.{expression};
ghost use Rattle.readings.specs.Readings.{made};
ghost use Rattle.c_statement.specs.Seen.{act_mark_of, deed_mark_of, deed_of, least_room};

use crate::call::call;
use crate::closed::{closed, kept};
use crate::front::{fixed, name};
use c_expression::whole;
use c_tree::{AssignMark, Expr, Name, Simple, StepMark, Target};
use readings::{Sign, Stop};
use std::alloc::Global;

/// A mark behind a target.
#[derive(Clone, Copy)]
pub enum DeedMark {
    Set,
    Add,
    Sub,
    Up,
    Down,
}

/// A mark behind the name of a simple statement.
#[derive(Clone, Copy)]
pub enum ActMark {
    Calling,
    Indexing,
    Doing(DeedMark),
}

/// What is done to a target: a value is stored, or it changes by one.
#[derive(Drop)]
pub enum Deed {
    Stores(AssignMark, Expr),
    Changes(StepMark),
}

/// A simple statement with at most so many nodes below it.
pub fn simple<'t, 'a>(
    alloc: Global,
    room: usize,
    signs: &'t [Sign<'a>],
) -> Result<(Simple, &'t [Sign<'a>]), Stop>
    requires few { room ≤ 200 }
    ensures says { Says (λ x. Found (act x.0) (map seen x.1.now)) result (spec.act_read room) (map seen signs.now) }
    ensures shorter { IfOk result (λ x. length x.1.now < length signs.now) }
{
    let (name, rest) = name(alloc, signs)?;
    simple_behind(alloc, room, name, rest)
}

/// What stands behind the name of a simple statement, which has at most so many nodes below it.
pub fn simple_behind<'t, 'a>(
    alloc: Global,
    room: usize,
    name: Name,
    signs: &'t [Sign<'a>],
) -> Result<(Simple, &'t [Sign<'a>]), Stop>
    requires few { room ≤ 200 }
    ensures says { Says (λ x. Found (act x.0) (map seen x.1.now)) result (spec.act_behind room name) (map seen signs.now) }
    ensures shorter { IfOk result (λ x. length x.1.now < length signs.now) }
{
    let Some((at, text, rest)) = fixed(signs) else {
        return Err(Stop::Stuck(signs.len()));
    };
    match mark_of(room, text) {
        Some(mark) => behind_mark(alloc, room, name, mark, at, rest),
        None => Err(Stop::Stuck(signs.len())),
    }
}

/// The mark of this text, where there is room for what it begins.
fn mark_of(room: usize, text: &[u8]) -> Option<ActMark>
    ensures mark { option_map act_mark_of result ≡ looked_up (spec.act_marks room) text.now }
    ensures fits { IfSome result (λ m. least_room m ≤ room) }
{
    if room == 0 {
        lone_mark(text)
    } else if room == 1 {
        plain_mark(text)
    } else {
        any_mark(text)
    }
}

/// The mark where there is room for no node.
fn lone_mark(text: &[u8]) -> Option<ActMark>
    ensures mark { option_map act_mark_of result ≡ looked_up (spec.act_marks 0) text.now }
    ensures fits { IfSome result (λ m. least_room m ≤ 0) }
{
    if text == b"(".as_slice() {
        Some(ActMark::Calling)
    } else {
        None
    }
}

/// The mark where there is room for one node.
fn plain_mark(text: &[u8]) -> Option<ActMark>
    ensures mark { option_map act_mark_of result ≡ looked_up (spec.act_marks 1) text.now }
    ensures fits { IfSome result (λ m. least_room m ≤ 1) }
{
    if text == b"(".as_slice() {
        Some(ActMark::Calling)
    } else if text == b"=".as_slice() {
        Some(ActMark::Doing(DeedMark::Set))
    } else if text == b"+=".as_slice() {
        Some(ActMark::Doing(DeedMark::Add))
    } else if text == b"-=".as_slice() {
        Some(ActMark::Doing(DeedMark::Sub))
    } else if text == b"++".as_slice() {
        Some(ActMark::Doing(DeedMark::Up))
    } else if text == b"--".as_slice() {
        Some(ActMark::Doing(DeedMark::Down))
    } else {
        None
    }
}

/// The mark where there is room for more.
fn any_mark(text: &[u8]) -> Option<ActMark>
    ensures mark { option_map act_mark_of result ≡ looked_up (spec.act_marks 2) text.now }
    ensures fits { IfSome result (λ m. least_room m ≤ 2) }
{
    if text == b"[".as_slice() {
        Some(ActMark::Indexing)
    } else {
        plain_mark(text)
    }
}

/// What stands behind this mark at this place.
fn behind_mark<'t, 'a>(
    alloc: Global,
    room: usize,
    name: Name,
    mark: ActMark,
    at: u32,
    signs: &'t [Sign<'a>],
) -> Result<(Simple, &'t [Sign<'a>]), Stop>
    requires few { room ≤ 200 }
    requires fits { least_room mark ≤ room }
    ensures says { Says (λ x. Found (act x.0) (map seen x.1.now)) result (spec.behind_mark room name (act_mark_of mark) at) (map seen signs.now) }
    ensures shorter { IfOk result (λ x. length x.1.now ≤ length signs.now) }
{
    match mark {
        ActMark::Calling => call(alloc, room, name, at, signs),
        ActMark::Indexing => indexed(alloc, room, name, at, signs),
        ActMark::Doing(mark) => {
            let (deed, rest) = behind_deed(alloc, room, mark, at, signs)?;
            Ok((done_to(name, None, deed), rest))
        }
    }
}

/// An index, its closing bracket and what is done, behind a name and an opening bracket.
fn indexed<'t, 'a>(
    alloc: Global,
    room: usize,
    name: Name,
    opening: u32,
    signs: &'t [Sign<'a>],
) -> Result<(Simple, &'t [Sign<'a>]), Stop>
    requires some { 2 ≤ room }
    requires few { room ≤ 200 }
    ensures says { Says (λ x. Found (act x.0) (map seen x.1.now)) result (spec.behind_mark room name spec.Indexing opening) (map seen signs.now) }
    ensures shorter { IfOk result (λ x. length x.1.now < length signs.now) }
{
    let (index, closing, rest) = closed(alloc, room - 1, b"]", signs)?;
    let (index, (deed, rest)) = kept(index, done(alloc, room, rest))?;
    Ok((done_to(name, Some((opening, index, closing)), deed), rest))
}

/// What is done to a target, from its mark on.
fn done<'t, 'a>(
    alloc: Global,
    room: usize,
    signs: &'t [Sign<'a>],
) -> Result<(Deed, &'t [Sign<'a>]), Stop>
    requires some { 1 ≤ room }
    requires few { room ≤ 200 }
    ensures says { Says (λ x. Found (deed_of x.0) (map seen x.1.now)) result (spec.deed room) (map seen signs.now) }
    ensures shorter { IfOk result (λ x. length x.1.now < length signs.now) }
{
    let Some((at, text, rest)) = fixed(signs) else {
        return Err(Stop::Stuck(signs.len()));
    };
    match deed_mark(text) {
        Some(mark) => behind_deed(alloc, room, mark, at, rest),
        None => Err(Stop::Stuck(signs.len())),
    }
}

/// The mark behind a target, of this text.
fn deed_mark(text: &[u8]) -> Option<DeedMark>
    ensures { option_map deed_mark_of result ≡ looked_up spec.deed_marks text.now }
{
    if text == b"=".as_slice() {
        Some(DeedMark::Set)
    } else if text == b"+=".as_slice() {
        Some(DeedMark::Add)
    } else if text == b"-=".as_slice() {
        Some(DeedMark::Sub)
    } else if text == b"++".as_slice() {
        Some(DeedMark::Up)
    } else if text == b"--".as_slice() {
        Some(DeedMark::Down)
    } else {
        None
    }
}

/// What stands behind the mark of what is done, which is at this place.
fn behind_deed<'t, 'a>(
    alloc: Global,
    room: usize,
    mark: DeedMark,
    at: u32,
    signs: &'t [Sign<'a>],
) -> Result<(Deed, &'t [Sign<'a>]), Stop>
    requires some { 1 ≤ room }
    requires few { room ≤ 200 }
    ensures says { Says (λ x. Found (deed_of x.0) (map seen x.1.now)) result (spec.behind_deed room (deed_mark_of mark) at) (map seen signs.now) }
    ensures shorter { IfOk result (λ x. length x.1.now ≤ length signs.now) }
{
    match mark {
        DeedMark::Set => stored(alloc, room, AssignMark::Set(at), signs),
        DeedMark::Add => stored(alloc, room, AssignMark::Add(at), signs),
        DeedMark::Sub => stored(alloc, room, AssignMark::Sub(at), signs),
        DeedMark::Up => Ok((Deed::Changes(StepMark::Up(at)), signs)),
        DeedMark::Down => Ok((Deed::Changes(StepMark::Down(at)), signs)),
    }
}

/// The value that is stored, behind this mark.
fn stored<'t, 'a>(
    alloc: Global,
    room: usize,
    mark: AssignMark,
    signs: &'t [Sign<'a>],
) -> Result<(Deed, &'t [Sign<'a>]), Stop>
    requires some { 1 ≤ room }
    requires few { room ≤ 200 }
    ensures says { Says (λ x. Found (deed_of x.0) (map seen x.1.now)) result (made (λ e. spec.Stores mark e) (expression room)) (map seen signs.now) }
    ensures shorter { IfOk result (λ x. length x.1.now ≤ length signs.now) }
{
    let (e, rest) = whole(alloc, room, signs)?;
    Ok((Deed::Stores(mark, e), rest))
}

/// The statement of a target and what is done to it.
fn done_to(name: Name, bracketed: Option<(u32, Expr, u32)>, deed: Deed) -> Simple
    ensures { act result ≡ spec.done_to name (index bracketed) (deed_of deed) }
{
    let target = Target {
        name,
        index: bracketed,
    };
    match deed {
        Deed::Stores(mark, e) => Simple::Assign(target, mark, e),
        Deed::Changes(mark) => Simple::Step(target, mark),
    }
}
