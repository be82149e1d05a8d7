//! A line of assembly text, read.

ghost use Rattle.std.specs.Prelude.{◌≡◌, ◌≤◌, IfOk};
ghost use Rattle.asm_lines.specs.Line as spec;
ghost use Rattle.asm_lines.specs.Seen.{IsContent, IsLabeled, IsLine};

use crate::directive::directive;
use crate::front::{
    begins_name, begins_with, behind_first, is_name, name_len, without_blanks, without_comment,
};
use crate::instruction::instruction;
use crate::line::{Content, Line};
use nk_base::{Memory, Text};
use std::alloc::Global;

/// The line of assembly text, of a description whose words have so many bits, 64 at most. `None` exactly where a byte, a name or a number can't
/// stand in it, or a directive has another form.
///
/// `;` begins a comment; blanks, tabs and carriage returns separate. A name directly followed by `:` in front is the label. Behind it there is
/// nothing; or `.bits` and a word in hexadecimal, with as many digits as a word has; or `.data`, a name, a cell and a value; or the tokens of an
/// instruction: words, numbers, marks, and references, each an `@` and a name. A name has at most 64 characters, a number at most 38 digits. Each
/// byte is looked at a fixed number of times. The one error is want of memory. The rule is this project's own.
pub fn read_line(alloc: Global, width: u32, line: &[u8]) -> Result<Option<Line>, Memory>
    requires { width ≤ 64 }
    ensures { IfOk result (λ found. IsLine found (spec.line width line.now)) }
{
    let text = without_blanks(without_comment(line));
    let (name, behind) = text.split_at(name_len(text));
    if !begins_name(text) || !begins_with(behind, b':') {
        let content = content(alloc, width, text)?;
        return Ok(with_label(None, content));
    }
    if !is_name(name) {
        return Ok(None);
    }
    let content = content(alloc, width, without_blanks(behind_first(behind)))?;
    let label = Text::from_bytes(alloc, name)?;
    Ok(with_label(Some(label), content))
}

/// The line with this label, where there is what stands behind it.
fn with_label(label: Option<Text>, content: Option<Content>) -> Option<Line>
    ensures { IsLabeled label content result }
{
    match content {
        None => None,
        Some(content) => Some(Line { label, content }),
    }
}

/// What stands behind the label: a directive where it begins with `.`.
fn content(alloc: Global, width: u32, text: &[u8]) -> Result<Option<Content>, Memory>
    requires { width ≤ 64 }
    ensures { IfOk result (λ found. IsContent found (spec.content width text.now)) }
{
    if begins_with(text, b'.') {
        directive(alloc, width, text)
    } else {
        instruction(alloc, text)
    }
}
