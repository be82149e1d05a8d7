//! The global variables of a program.

ghost use Rattle.std.specs.Prelude.{◌≡◌, ◌++◌, ◌∷◌, [], map, IfOk, OnOk};
ghost use Rattle.c_tree.specs.Items.{item};
ghost use Rattle.c_tree.specs.Names.{gvars};
ghost use Rattle.c_tree.specs.Resolve.{initial, global_variables};
ghost use Rattle.c_walk.specs.Walk.{further_gvars};
ghost use Rattle.c_shapes.specs.Shapes.{variable_of, variable_shown};

use c_tree::{GVar, Global as CGlobal, SNum, Vars};
use nk_base::Memory;
use std::alloc::Global;

/// A global variable: its length, where it's an array, and its initial values.
///
/// The form is this project's own.
#[derive(Drop)]
pub struct Variable {
    pub length: Option<u64>,
    pub initial: Vec<i64>,
}

/// An initial value, where 64 bits with a sign hold it.
fn initial_value(z: SNum) -> Result<i64, Memory>
    ensures { IfOk result (λ n. n ≡ initial z) }
{
    let wide = i128::from(z.number.value);
    let value = match z.minus {
        None => wide,
        Some(_) => -wide,
    };
    match i64::try_from(value) {
        Ok(small) => Ok(small),
        Err(_) => Err(Memory),
    }
}

/// Adds an initial value.
fn push_value(values: &mut Vec<i64>, z: SNum) -> Result<(), Memory>
    ensures { OnOk result (values.new.items ≡ values.old.items ++ map initial (z ∷ [])) }
{
    let value = initial_value(z)?;
    values.push(value)?;
    Ok(())
}

/// Adds further initial values.
fn push_values(values: &mut Vec<i64>, rest: &[(u32, SNum)]) -> Result<(), Memory>
    ensures { OnOk result (values.new.items ≡ values.old.items ++ map (λ (comma, x). initial x) rest.now) }
{
    for (_, one) in rest {
        push_value(values, *one)?;
    }
    Ok(())
}

/// A global variable.
fn read_variable(alloc: Global, one: &GVar) -> Result<Variable, Memory>
    ensures { IfOk result (λ v. variable_shown v ≡ variable_of one.now) }
{
    let mut values = Vec::new(alloc);
    match one {
        GVar::Scalar(_, value) => match value {
            None => Ok(Variable {
                length: None,
                initial: values,
            }),
            Some((_, z)) => {
                push_value(&mut values, *z)?;
                Ok(Variable {
                    length: None,
                    initial: values,
                })
            }
        },
        GVar::Array(_, _, length, _, start) => match start {
            None => Ok(Variable {
                length: Some(length.value),
                initial: values,
            }),
            Some((_, _, first, rest, _)) => {
                push_value(&mut values, *first)?;
                push_values(&mut values, rest.as_slice())?;
                Ok(Variable {
                    length: Some(length.value),
                    initial: values,
                })
            }
        },
    }
}

/// Adds a global variable.
fn push_variable(alloc: Global, variables: &mut Vec<Variable>, one: &GVar) -> Result<(), Memory>
    ensures { OnOk result (map variable_shown variables.new.items ≡ map variable_shown variables.old.items ++ variable_of one.now ∷ []) }
{
    let variable = read_variable(alloc, one)?;
    variables.push(variable)?;
    Ok(())
}

/// Adds further global variables.
fn push_others(
    alloc: Global,
    variables: &mut Vec<Variable>,
    rest: &[(u32, GVar)],
) -> Result<(), Memory>
    ensures { OnOk result (map variable_shown variables.new.items ≡ map variable_shown variables.old.items ++ map variable_of (further_gvars rest.now)) }
{
    for (_, one) in rest {
        push_variable(alloc, variables, one)?;
    }
    Ok(())
}

/// Adds global variables that are declared together.
fn push_variables(alloc: Global, variables: &mut Vec<Variable>, vars: &Vars) -> Result<(), Memory>
    ensures { OnOk result (map variable_shown variables.new.items ≡ map variable_shown variables.old.items ++ map variable_of (gvars vars.now)) }
{
    push_variable(alloc, variables, &vars.first)?;
    push_others(alloc, variables, vars.rest.as_slice())
}

/// The global variables of a program, in the text's order.
///
/// The one error is want of memory; an initial value that no number of 64 bits with a sign is counts as such.
pub fn variables_of(alloc: Global, globals: &[CGlobal]) -> Result<Vec<Variable>, Memory>
    ensures { IfOk result (λ vs. map variable_shown vs.items ≡ global_variables (map item globals.now)) }
{
    let mut variables = Vec::new(alloc);
    for one in globals {
        match one {
            CGlobal::Vars(vars) => push_variables(alloc, &mut variables, vars)?,
            CGlobal::Function(_) => {}
        }
    }
    Ok(variables)
}
