//! Numbers in rising order, each once.

ghost use Rattle.std.specs.Prelude.{◌≡◌, IfOk};
ghost use Rattle.c_tree.specs.Lowered as spec;

use nk_base::Memory;

/// The numbers in rising order, each once. The one error is want of memory.
pub fn in_order(mut numbers: Vec<i64>) -> Result<Vec<i64>, Memory>
    ensures { IfOk result (λ r. r.items ≡ spec.in_order numbers.items) }
{
    numbers.sort()?;
    numbers.dedup();
    Ok(numbers)
}
