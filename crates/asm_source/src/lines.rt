//! The lines of a text.

ghost use Rattle.std.specs.Prelude.{◌≤◌, MatchResult};
ghost use Rattle.asm_source.specs.Formed.{AreFormed, IsFormFault};

use crate::first::first_line;
use asm_lines::{Line, read_line};
use asm_text::AsmFault;
use std::alloc::Global;

/// The lines of an assembly text of a description whose words have so many bits, 64 at most.
///
/// A line ends at a line feed; behind the last line feed stands a last line, which may be empty. The errors are `Lex`, exactly where a line has
/// no form, at the first of these, and want of memory. Each byte is looked at a fixed number of times. The rule is this project's own.
pub fn read_lines(alloc: Global, width: u32, text: &[u8]) -> Result<Vec<Line>, AsmFault>
    requires { width ≤ 64 }
    ensures { MatchResult result (λ ls. AreFormed width text.now ls.items) (λ f. IsFormFault width text.now f) }
{
    let mut lines = Vec::new(alloc);
    let mut number = 0u64;
    let mut rest = Some(text);
    while let Some(left) = rest {
        let (first, more) = first_line(left);
        number += 1;
        match read_line(alloc, width, first)? {
            None => return Err(AsmFault::Lex { line: number }),
            Some(line) => lines.push(line)?,
        }
        rest = more;
    }
    Ok(lines)
}
