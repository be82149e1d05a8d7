//! The functions of a program, with their parameters and locals.

ghost use Rattle.std.specs.Prelude.{◌≡◌, ◌++◌, None, length, map, replicate, IfOk, OnOk};
ghost use Rattle.c_tree.specs.Items.{item};
ghost use Rattle.c_tree.specs.Names.{body_shapes, first_names, gives_value, parameters};
ghost use Rattle.c_tree.specs.Resolve.{body_of, resolved_functions};
ghost use Rattle.c_tree.specs.Statement.{block};
ghost use Rattle.c_walk.specs.Walk.{defined};
ghost use Rattle.c_shapes.specs.Shapes.{declared, declared_shown, outlined};

use crate::bodies::{ends_with_return, push_block};
use c_names::{count_of, is_main};
use c_tree::{Function, Global as CGlobal, ResultWord};
use nk_base::Memory;
use std::alloc::Global;

/// What is declared of a function: whether it's `main`, how many parameters it has, whether it gives a value, whether
/// the last thing in its body is a `return`, and its parameters and locals in the text's order, by their lengths where
/// they are arrays.
///
/// The form is this project's own.
#[derive(Drop)]
pub struct Declared {
    pub main: bool,
    pub arity: usize,
    pub gives: bool,
    pub returns: bool,
    pub variables: Vec<Option<u64>>,
}

/// Whether a function with this word gives a value.
fn gives_by(word: ResultWord) -> bool
    ensures { result ≡ gives_value word }
{
    match word {
        ResultWord::Type(_) => true,
        ResultWord::Void(_) => false,
    }
}

/// Adds so many parameters.
fn push_parameters(shapes: &mut Vec<Option<u64>>, count: usize) -> Result<(), Memory>
    ensures { OnOk result (shapes.new.items ≡ shapes.old.items ++ replicate count None) }
{
    for _ in 0..count {
        shapes.push(None)?;
    }
    Ok(())
}

/// The parameters and locals of a function.
fn variables_in(alloc: Global, function: &Function) -> Result<Vec<Option<u64>>, Memory>
    ensures { IfOk result (λ vs. vs.items ≡ replicate (length (parameters function.now.params)) None ++ body_shapes (body_of (block function.now.body))) }
{
    let mut shapes = Vec::new(alloc);
    push_parameters(&mut shapes, count_of(&function.params))?;
    push_block(&mut shapes, function.body.parts.as_slice())?;
    Ok(shapes)
}

/// What is declared of a function.
fn declared_of(alloc: Global, function: &Function) -> Result<Declared, Memory>
    ensures { IfOk result (λ d. declared_shown d ≡ outlined (defined function.now)) }
{
    let variables = variables_in(alloc, function)?;
    let main = is_main(&function.name.text);
    let arity = count_of(&function.params);
    let gives = gives_by(function.result);
    let returns = ends_with_return(function.body.parts.as_slice());
    Ok(Declared {
        main,
        arity,
        gives,
        returns,
        variables,
    })
}

/// The functions of a program, `main` too, in the text's order.
///
/// The one error is want of memory.
pub fn functions_of(alloc: Global, globals: &[CGlobal]) -> Result<Vec<Declared>, Memory>
    ensures { IfOk result (λ fs. map declared_shown fs.items ≡ map declared (resolved_functions (first_names (map item globals.now)) (map item globals.now))) }
{
    let mut functions = Vec::new(alloc);
    for one in globals {
        match one {
            CGlobal::Vars(_) => {}
            CGlobal::Function(function) => {
                let declared = declared_of(alloc, function)?;
                functions.push(declared)?;
            }
        }
    }
    Ok(functions)
}
