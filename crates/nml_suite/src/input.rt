ghost use Rattle.std.specs.Prelude.{◌≡◌, ◌≤◌, length};
ghost use Rattle.input_lines.specs.Reading.{IsInput};
ghost use Rattle.nk_outside.specs.Held.{file_limit};
ghost use Rattle.nml_suite.specs.Refusing.{IsNumbered};

use input_lines::{InputFault, numbers_of};
use nk_base::{Text, Ty};
use nml_reply::Refusal;
use std::alloc::Global;

/// The numbers that the lines of the named file's text write, each of the input's type, where there is an input.
pub fn numbered<'a>(
    alloc: Global,
    name: &'a Text,
    text: &[u8],
    port: Option<Ty>,
) -> Result<Vec<i64>, Refusal<'a>>
    requires limit { length text.now ≤ file_limit }
    requires port { IsInput port }
    ensures { IsNumbered name.now port text.now result }
{
    match numbers_of(alloc, text, port) {
        Ok(numbers) => Ok(numbers),
        Err(InputFault::Line(line)) => Err(Refusal::Input(name, line)),
        Err(InputFault::Memory) => Err(Refusal::Memory),
    }
}
