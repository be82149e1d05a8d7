//! The rule that all begins with.

ghost use Rattle.std.specs.Prelude.{◌≡◌, IfOk, codes};

use nk_base::{Memory, Text};
use std::alloc::Global;

/// Its name.
pub fn root_name(alloc: Global) -> Result<Text, Memory>
    ensures { IfOk result (λ t. t ≡ codes "instruction") }
{
    Text::from_bytes(alloc, b"instruction".as_slice())
}
