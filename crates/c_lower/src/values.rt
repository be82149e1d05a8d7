//! What cells hold at the start.

ghost use Rattle.std.specs.Prelude.{◌≡◌, ◌++◌, ◌∷◌, [], not, map, filter, IfOk, OnOk};
ghost use Rattle.c_tree.specs.Lowered.{numbered, is_zero, initial_among};
ghost use Rattle.c_shapes.specs.Shapes.{variable_shown};

use crate::room::size_of;
use c_pieces::sum;
use c_shapes::Variable;
use nk_base::Memory;
use std::alloc::Global;

/// Puts a value behind the others, where it isn't 0.
fn push_value(cell: u32, value: i64, out: &mut Vec<(u32, i64)>) -> Result<(), Memory>
    ensures { OnOk result (out.new.items ≡ out.old.items ++ filter (λ (k, z). not (is_zero z)) ((cell, value) ∷ [])) }
{
    if value == 0 {
        return Ok(());
    }
    out.push((cell, value))?;
    Ok(())
}

/// Puts the values of cells from this one on behind the others, those that are 0 left out.
fn push_values(cell: u32, values: &[i64], out: &mut Vec<(u32, i64)>) -> Result<(), Memory>
    ensures { OnOk result (out.new.items ≡ out.old.items ++ filter (λ (k, z). not (is_zero z)) (numbered cell values.now)) }
{
    let mut next = cell;
    for value in values {
        push_value(next, *value, out)?;
        next = sum(next, 1)?;
    }
    Ok(())
}

/// The initial values of global variables that aren't 0, with their cells. The one error is want of memory.
pub(crate) fn values_of(alloc: Global, variables: &[Variable]) -> Result<Vec<(u32, i64)>, Memory>
    ensures { IfOk result (λ s. s.items ≡ initial_among 0 (map variable_shown variables.now)) }
{
    let mut out = Vec::new(alloc);
    let mut cell = 0;
    for variable in variables {
        push_values(cell, variable.initial.as_slice(), &mut out)?;
        cell = sum(cell, size_of(variable.length)?)?;
    }
    Ok(out)
}
