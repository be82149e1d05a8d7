//! The numbers of a whole input.

ghost use Rattle.std.specs.Prelude.{◌≤◌, length};
ghost use Rattle.input_lines.specs.Reading.{AreNumbers, IsInput};

use crate::first::first_line;
use crate::line::push_line;
use nk_base::{Memory, Ty};
use std::alloc::Global;

/// Why an input isn't numbers.
#[derive(Clone, Copy, Debug, PartialEq, Eq)]
pub enum InputFault {
    /// This line, counted from 1, is the first that isn't blank and isn't one number of the type.
    Line(u64),
    /// Want of memory.
    Memory,
}

impl From<Memory> for InputFault {
    ghost use Rattle.std.specs.Prelude.{◌≡◌};
    ghost use Rattle.input_lines.specs.declared.numbers.InputFault.TheVariants.{Memory};

    ghost from_gives = { λ _ fault. fault ≡ Memory };

    fn from(_: Memory) -> InputFault {
        InputFault::Memory
    }
}

/// The numbers that the lines of an input of this type write, in order: one a line, but for blank lines, which count as lines. Where there is no
/// input, no number is wanted.
///
/// A type has at most 63 bits. A number is an optional `-` and one to nineteen digits; blanks, tabs and carriage returns round it are skipped. `Line` comes exactly where a
/// line isn't blank and isn't one such number, at the first. Each byte is looked at a fixed number of times. Want of memory may come at any
/// growth. The rule is this project's own.
pub fn numbers_of(alloc: Global, text: &[u8], ty: Option<Ty>) -> Result<Vec<i64>, InputFault>
    requires ty { IsInput ty }
    requires limit { length text.now ≤ 4194304 }
    ensures { AreNumbers ty text.now result }
{
    let mut numbers = Vec::new(alloc);
    let mut line = 0u64;
    let mut rest = Some(text);
    while let Some(left) = rest {
        let (first, more) = first_line(left);
        line += 1;
        if !push_line(first, ty, &mut numbers)? {
            return Err(InputFault::Line(line));
        }
        rest = more;
    }
    Ok(numbers)
}
