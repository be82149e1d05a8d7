//! Accepting a program, or saying why it isn't one.

ghost use Rattle.std.specs.Prelude.{◌≡◌, ◌≤◌, ℕ, IfOk, MatchResult, MatchOption, None, Some, map, length, slice_get};
ghost use Rattle.std.specs.Option.{option_map};
ghost use Rattle.c_tree.specs.Items.{item};
ghost use Rattle.c_tree.specs.Names.{functions_in, parameters};
ghost use Rattle.c_tree.specs.Recursion.{others, main_of};
ghost use Rattle.c_tree.specs.Accepted.{IsAcceptedTree, IsTreeFaultOf};
ghost use Rattle.c_tree.specs.Resolve.{resolved};
ghost use Rattle.c_tree.specs.Counts.{data_of};
ghost use Rattle.c_check.specs.Note.{nothing};
ghost use Rattle.c_check.specs.First.{IsFirst, IsNamed, recursion_of};

use crate::global::note_all;
use crate::note::Found;
use crate::numbers::width_of;
use c_cycle::first_cycle;
use c_data::cells_of;
use c_names::{count_of, is_main};
use c_tree::{CFault, CProg, CTree, Global as CGlobal};
use nk_base::{Memory, Text};
use std::alloc::Global;

/// The first of the faults that were met: the lowest number's, at its least place.
fn first_fault(found: Found) -> Result<(), CFault>
    ensures { MatchResult result (λ done. found ≡ nothing) (λ f. IsFirst found f) }
{
    if let Some(at) = found.names {
        return Err(CFault::Name { at });
    }
    if let Some(at) = found.kinds {
        return Err(CFault::Kind { at });
    }
    if let Some(at) = found.numbers {
        return Err(CFault::Literal { at });
    }
    if let Some(at) = found.shifts {
        return Err(CFault::Shift { at });
    }
    Ok(())
}

/// The name of the function of this number, where `main` isn't counted.
fn name_of(globals: &[CGlobal], number: usize) -> Result<Option<Text>, Memory>
    ensures { IfOk result (λ o. MatchOption o (slice_get (others (functions_in (map item globals.now))) number ≡ None) (λ name. IsNamed (slice_get (others (functions_in (map item globals.now))) number) name)) }
{
    let mut left = number;
    for one in globals {
        match one {
            CGlobal::Vars(_) => {}
            CGlobal::Function(function) => {
                if !is_main(&function.name.text) {
                    if left == 0 {
                        return Ok(Some(function.name.text.clone()?));
                    }
                    left -= 1;
                }
            }
        }
    }
    Ok(None)
}

/// The fault of a function of this name that reaches itself.
fn recursion(name: Option<Text>) -> CFault
    ensures { result ≡ recursion_of name }
{
    match name {
        None => CFault::Memory,
        Some(name) => CFault::Recursion { name },
    }
}

/// How many parameters `main` has, where there is one.
fn main_arity(globals: &[CGlobal]) -> Option<usize>
    ensures { result ≡ option_map (λ f. length (parameters f.params)) (main_of (functions_in (map item globals.now))) }
{
    for one in globals {
        match one {
            CGlobal::Vars(_) => {}
            CGlobal::Function(function) => {
                if is_main(&function.name.text) {
                    return Some(count_of(&function.params));
                }
            }
        }
    }
    None
}

/// Whether the program is accepted, or why it isn't.
fn judge(alloc: Global, t: &CTree, n: u32) -> Result<(), CFault>
    requires low { 16 ≤ n }
    requires high { n ≤ 32 }
    ensures { MatchResult result (λ done. IsAcceptedTree t.now n) (λ f. IsTreeFaultOf t.now n f) }
{
    let globals = t.globals.as_slice();
    let (found, rows) = note_all(alloc, globals, width_of(n))?;
    match first_fault(found) {
        Err(fault) => return Err(fault),
        Ok(()) => {}
    }
    match first_cycle(alloc, rows.as_slice())? {
        Some(number) => Err(recursion(name_of(globals, number)?)),
        None => match main_arity(globals) {
            None => Err(CFault::Main),
            Some(arity) => {
                if arity == 0 {
                    Ok(())
                } else {
                    Err(CFault::Main)
                }
            }
        },
    }
}

/// How many cells the program's statements have, where it is accepted, or why it isn't. A count that is too great counts as want
/// of memory.
fn judged_cells(alloc: Global, t: &CTree, n: u32) -> Result<u64, CFault>
    requires low { 16 ≤ n }
    requires high { n ≤ 32 }
    ensures judged { MatchResult result (λ cells. IsAcceptedTree t.now n) (λ f. IsTreeFaultOf t.now n f) }
    ensures cells { IfOk result (λ cells. cells ≡ data_of (resolved t.now) n) }
{
    judge(alloc, t, n)?;
    Ok(cells_of(alloc, t, n)?)
}

/// The program, accepted with numbers of `n` bits, or the first of its faults.
///
/// Of several faults the lowest number is answered, and of one number the least place: names that are unknown or declared
/// twice, uses of another kind, numbers out of their range, amounts of shifts, the first function that reaches itself, and
/// a `main` that is missing or has parameters. Want of memory may come at any growth; 2^64 cells of statements or more, and a
/// count of 2^32 or more for one of the program's nodes, count as such. The rules are this project's own.
pub fn check(alloc: Global, t: CTree, n: u32) -> Result<CProg, CFault>
    requires low { 16 ≤ n }
    requires high { n ≤ 32 }
    ensures { MatchResult result (λ p. p ≡ (t, n)) (λ f. IsTreeFaultOf t n f) }
{
    match judged_cells(alloc, &t, n) {
        Err(fault) => Err(fault),
        Ok(cells) => Ok(CProg { tree: t, n, cells }),
    }
}
