//! How many cells variables have, and sums.

ghost use Rattle.std.specs.Prelude.{◌≡◌, ◌+◌, max, map, IfOk};
ghost use Rattle.c_tree.specs.Program.{size, sizes};
ghost use Rattle.c_shapes.specs.Shapes.{variable_shown};

use c_shapes::Variable;
use nk_base::Memory;
use std::alloc::Global;

/// A sum; one of 2^64 or more counts as want of memory.
pub(crate) fn sum(a: u64, b: u64) -> Result<u64, Memory>
    ensures { IfOk result (λ n. n ≡ a + b) }
{
    match a.checked_add(b) {
        Some(n) => Ok(n),
        None => Err(Memory),
    }
}

/// The greater of two numbers.
pub(crate) fn greater(a: u64, b: u64) -> u64
    ensures { result ≡ max a b }
{
    if a < b { b } else { a }
}

/// How many cells a variable has.
fn size_of(shape: Option<u64>) -> u64
    ensures { result ≡ size shape }
{
    match shape {
        None => 1,
        Some(length) => length,
    }
}

/// How many cells variables have together. The one error is want of memory; 2^64 or more count as such.
pub(crate) fn sizes_of(shapes: &[Option<u64>]) -> Result<u64, Memory>
    ensures { IfOk result (λ k. k ≡ sizes shapes.now) }
{
    let mut all = 0;
    for shape in shapes {
        all = sum(all, size_of(*shape))?;
    }
    Ok(all)
}

/// The lengths of global variables, where they are arrays. The one error is want of memory.
pub(crate) fn shapes_of(alloc: Global, variables: &[Variable]) -> Result<Vec<Option<u64>>, Memory>
    ensures { IfOk result (λ vs. vs.items ≡ map (λ v. v.shape) (map variable_shown variables.now)) }
{
    let mut shapes = Vec::new(alloc);
    for variable in variables {
        shapes.push(variable.length)?;
    }
    Ok(shapes)
}
