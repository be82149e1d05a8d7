//! How many cells variables have.

ghost use Rattle.std.specs.Prelude.{◌≡◌, map, IfOk};
ghost use Rattle.c_tree.specs.Program.{size, sizes};
ghost use Rattle.c_shapes.specs.Shapes.{variable_shown};

use c_pieces::sum;
use c_shapes::Variable;
use nk_base::Memory;
use std::alloc::Global;

/// How many cells a variable has. The one error is want of memory; 2^32 or more count as such.
pub(crate) fn size_of(shape: Option<u64>) -> Result<u32, Memory>
    ensures { IfOk result (λ k. k ≡ size shape) }
{
    match shape {
        None => Ok(1),
        Some(length) => match u32::try_from(length) {
            Ok(cells) => Ok(cells),
            Err(_) => Err(Memory),
        },
    }
}

/// How many cells variables have together. The one error is want of memory; 2^32 or more count as such.
pub(crate) fn sizes_of(shapes: &[Option<u64>]) -> Result<u32, Memory>
    ensures { IfOk result (λ k. k ≡ sizes shapes.now) }
{
    let mut all = 0;
    for shape in shapes {
        all = sum(all, size_of(*shape)?)?;
    }
    Ok(all)
}

/// The lengths of global variables, where they are arrays. The one error is want of memory.
pub(crate) fn shapes_of(alloc: Global, variables: &[Variable]) -> Result<Vec<Option<u64>>, Memory>
    ensures { IfOk result (λ vs. vs.items ≡ map (λ v. v.shape) (map variable_shown variables.now)) }
{
    let mut shapes = Vec::new(alloc);
    for variable in variables {
        shapes.push(variable.length)?;
    }
    Ok(shapes)
}
