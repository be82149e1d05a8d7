//! What names mean before the first global.

ghost use Rattle.std.specs.Prelude.{◌≡◌, ◌+◌, IfOk, OnOk, map, length, codes};
ghost use Rattle.std.specs.HashMap.{HashMap};
ghost use Rattle.nk_base.specs.Text.{text_eq};
ghost use Rattle.c_tree.specs.Items.{item, Definition};
ghost use Rattle.c_tree.specs.Names.{ports, parameters, gives_value, main_alone, first_names, function_meanings, functions_in};
ghost use Rattle.c_names.specs.Shown.{names};

use crate::scopes::{Scopes, put};
use c_tree::{Global as CGlobal, Meaning, Params, ResultWord};
use indexmap::IndexMap;
use nk_base::{Memory, Text};
use std::alloc::Global;

/// Whether this is the name `main`. It takes no memory.
pub fn is_main(name: &Text) -> bool
    ensures { result ≡ text_eq name.now (codes "main") }
{
    name.as_bytes() == b"main".as_slice()
}

/// How many parameters these are. It takes no memory.
pub fn count_of(params: &Option<Params>) -> usize
    ensures { result ≡ length (parameters params.now) }
{
    match params {
        None => 0,
        Some(found) => match found {
            Params::Void(_) => 0,
            Params::Named(_, rest) => rest.as_slice().len() + 1,
        },
    }
}

/// Whether a function with this word gives a value.
pub fn gives(word: ResultWord) -> bool
    ensures { result ≡ gives_value word }
{
    match word {
        ResultWord::Type(_) => true,
        ResultWord::Void(_) => false,
    }
}

/// `in` and `out`.
fn both_ports(alloc: Global) -> Result<IndexMap<Text, Meaning>, Memory>
    ensures { IfOk result (λ m. m.entries ≡ ports) }
{
    let mut list = IndexMap::new(alloc);
    list.insert(Text::from_bytes(alloc, b"in")?, Meaning::In)?;
    list.insert(Text::from_bytes(alloc, b"out")?, Meaning::Out)?;
    Ok(list)
}

/// `main`, which may be called nowhere.
fn only_main(alloc: Global) -> Result<IndexMap<Text, Meaning>, Memory>
    ensures { IfOk result (λ m. m.entries ≡ main_alone) }
{
    let mut list = IndexMap::new(alloc);
    list.insert(Text::from_bytes(alloc, b"main")?, Meaning::Main)?;
    Ok(list)
}

/// The number behind this one.
fn next_number(number: usize) -> Result<usize, Memory>
    ensures { IfOk result (λ next. next ≡ number + 1) }
{
    match number.checked_add(1) {
        None => Err(Memory),
        Some(next) => Ok(next),
    }
}

/// What the names of the text's functions mean, with `main` also where the text has none.
fn all_functions(alloc: Global, globals: &[CGlobal]) -> Result<IndexMap<Text, Meaning>, Memory>
    ensures { IfOk result (λ m. m.entries ≡ function_meanings main_alone 0 (functions_in (map item globals.now))) }
{
    let mut list = only_main(alloc)?;
    let mut number: usize = 0;
    for one in globals {
        match one {
            CGlobal::Vars(_) => {}
            CGlobal::Function(function) => {
                if is_main(&function.name.text) {
                    put(&mut list, &function.name.text, Meaning::Main)?;
                } else {
                    let arity = count_of(&function.params);
                    let meaning = Meaning::Callee(number, arity, gives(function.result));
                    put(&mut list, &function.name.text, meaning)?;
                    number = next_number(number)?;
                }
            }
        }
    }
    Ok(list)
}

/// What names mean before the first global: `in`, `out`, and the functions of the text where they are called.
///
/// The one error is want of memory.
pub fn first_scopes(alloc: Global, globals: &[CGlobal]) -> Result<Scopes, Memory>
    ensures { IfOk result (λ s. names s ≡ first_names (map item globals.now)) }
{
    let functions = all_functions(alloc, globals)?;
    let mut outer = Vec::new(alloc);
    outer.push(both_ports(alloc)?)?;
    Ok(Scopes {
        block: IndexMap::new(alloc),
        outer,
        functions,
        next: 0,
    })
}
