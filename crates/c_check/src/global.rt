//! The faults and calls of a whole program.

ghost use Rattle.std.specs.Prelude.{◌≡◌, ◌++◌, ◌∷◌, List, OnOk, IfOk, map};
ghost use Rattle.c_tree.specs.Items.{Item, item};
ghost use Rattle.c_tree.specs.Names.{behind_name, behind_global};
ghost use Rattle.c_tree.specs.Names as spec;
ghost use Rattle.c_tree.specs.Faults.{giving, global_faults, faults};
ghost use Rattle.c_tree.specs.Recursion.{graph, calls_of};
ghost use Rattle.c_names.specs.Shown.{names};
ghost use Rattle.c_check.specs.Note.{noted, nothing};
ghost use Rattle.c_walk.specs.Walk.{defined, row_of};
ghost use Rattle.c_check.specs.Within.{giving_of};
ghost use Rattle.c_tree.specs.declared.program.Global.TheVariants as global;

use crate::declaration::{all_parameters, declared, globals};
use crate::note::{Found, Notes};
use crate::numbers::Width;
use crate::statement::{Around, Gives, parts_of};
use c_names::{Scopes, first_scopes, is_main};
use c_tree::{Function, Global as CGlobal, Meaning, ResultWord};
use nk_base::Memory;
use sqlite_items::Items;
use std::alloc::Global;
use std::mem;

/// Which `return` the function has.
fn gives_of(function: &Function) -> Gives
    ensures { giving_of result ≡ giving (defined function.now) }
{
    match function.result {
        ResultWord::Void(_) => Gives::Nothing,
        ResultWord::Type(_) => {
            if is_main(&function.name.text) {
                Gives::Either
            } else {
                Gives::Value
            }
        }
    }
}

/// Declares the function's own name.
fn declare_function(scopes: &mut Scopes, function: &Function) -> Result<(), Memory>
    ensures { OnOk result (names scopes.new ≡ behind_name (names scopes.old) (defined function.now)) }
{
    let name = &function.name.text;
    match scopes.function(name) {
        None => scopes.declare(name, Meaning::Main),
        Some(meaning) => scopes.declare(name, meaning),
    }
}

/// Begins the block of a function's body, with cells from 0 on.
fn enter_function(scopes: &mut Scopes, alloc: Global) -> Result<(), Memory>
    ensures { OnOk result (names scopes.new ≡ record (spec.inner (names scopes.old)) { next = 0 }) }
{
    scopes.enter(alloc)?;
    scopes.next = 0;
    Ok(())
}

/// Notes the faults and the calls of a function, and declares its name.
#[tactic(auto, using(crate::proofs::WalkLaws::walk_laws))]
fn function_of(
    scopes: &mut Scopes,
    alloc: Global,
    width: Width,
    function: &Function,
    notes: &mut Notes,
) -> Result<(), Memory>
    ensures scopes { OnOk result (names scopes.new ≡ behind_name (names scopes.old) (defined function.now)) }
    ensures found { OnOk result (notes.new.found ≡ noted notes.old.found (global_faults width.bits (names scopes.old) (item (global.Function function.now)))) }
    ensures calls { OnOk result (notes.new.calls.items ≡ notes.old.calls.items ++ row_of (names scopes.old) (defined function.now)) }
{
    declared(scopes, &function.name, notes);
    declare_function(scopes, function)?;
    let next = scopes.next;
    enter_function(scopes, alloc)?;
    all_parameters(scopes, &function.params, notes)?;
    let around = Around {
        width,
        gives: gives_of(function),
        looped: false,
    };
    parts_of(scopes, alloc, around, function.body.parts.as_slice(), notes)?;
    scopes.leave();
    scopes.next = next;
    Ok(())
}

/// Notes the faults of a global, declares its names, and puts a row of calls for a function other than `main`.
fn one_global(
    scopes: &mut Scopes,
    alloc: Global,
    width: Width,
    one: &CGlobal,
    notes: &mut Notes,
    rows: &mut Vec<Items<usize>>,
) -> Result<(), Memory>
    ensures scopes { OnOk result (names scopes.new ≡ behind_global (names scopes.old) (item one.now)) }
    ensures found { OnOk result (notes.new.found ≡ noted notes.old.found (global_faults width.bits (names scopes.old) (item one.now))) }
    ensures rows { OnOk result ((rest : List Item) → rows.old.items ++ graph (names scopes.old) (item one.now ∷ rest) ≡ rows.new.items ++ graph (names scopes.new) rest) }
{
    match one {
        CGlobal::Vars(vars) => globals(scopes, width, vars, notes),
        CGlobal::Function(function) => {
            notes.calls = Vec::new(alloc);
            function_of(scopes, alloc, width, function, notes)?;
            let row = mem::replace(&mut notes.calls, Vec::new(alloc));
            if is_main(&function.name.text) {
                Ok(())
            } else {
                rows.push(Items::from_vec(row))?;
                Ok(())
            }
        }
    }
}

/// The least place of each kind of fault, and for each function other than `main` a row of the functions that it calls.
///
/// The one error is want of memory.
pub fn note_all(
    alloc: Global,
    globals: &[CGlobal],
    width: Width,
) -> Result<(Found, Vec<Items<usize>>), Memory>
    ensures found { IfOk result (λ r. r.0 ≡ noted nothing (faults (map item globals.now) width.bits)) }
    ensures rows { IfOk result (λ r. r.1.items ≡ calls_of (map item globals.now)) }
{
    let mut scopes = first_scopes(alloc, globals)?;
    let mut notes = Notes {
        found: Found {
            names: None,
            kinds: None,
            numbers: None,
            shifts: None,
        },
        calls: Vec::new(alloc),
    };
    let mut rows = Vec::new(alloc);
    for one in globals {
        one_global(&mut scopes, alloc, width, one, &mut notes, &mut rows)?;
    }
    Ok((notes.found, rows))
}
