//! Numbers that may not fit.

ghost use Rattle.std.specs.Prelude.{◌≡◌, ◌+◌, IfOk};

use nk_base::Memory;

/// The sum. The one error is want of memory; a number of 2^32 or more counts as such.
pub(crate) fn sum(a: u32, b: u32) -> Result<u32, Memory>
    ensures { IfOk result (λ n. n ≡ a + b) }
{
    match a.checked_add(b) {
        Some(n) => Ok(n),
        None => Err(Memory),
    }
}
