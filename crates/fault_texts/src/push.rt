//! Parts of a line that tells a fault.

ghost use Rattle.std.specs.Prelude.{◌≡◌, ◌++◌, OnOk};
ghost use Rattle.std.specs.Fmt.{decimal};

use nk_base::{Memory, Text, dec};
use std::alloc::Global;

/// Appends a text and a number.
pub fn push_number(alloc: Global, line: &mut Text, before: &[u8], number: u64) -> Result<(), Memory>
    ensures { OnOk result (line.new ≡ line.old ++ (before.now ++ decimal number)) }
{
    line.push_bytes(before)?;
    line.push_bytes(dec(alloc, i128::from(number))?.as_bytes())
}

/// Appends a text and a name.
pub fn push_name(line: &mut Text, before: &[u8], name: &Text) -> Result<(), Memory>
    ensures { OnOk result (line.new ≡ line.old ++ (before.now ++ name.now)) }
{
    line.push_bytes(before)?;
    line.push_bytes(name.as_bytes())
}
