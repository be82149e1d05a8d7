//! What is counted of a command, over what is counted of its parts.

ghost use Rattle.std.specs.Prelude.{◌≡◌, ◌+◌, IfOk};
ghost use Rattle.c_count.specs.Over as over;
ghost use Rattle.c_count.specs.declared.size.Size.TheVariants as size;

use crate::size::{CommandSize, Size, TermSize, TermsSize};
use crate::term::sum;
use nk_base::Memory;

/// So many step cells and labels.
pub(crate) fn own(cells: u32, marks: u32) -> CommandSize
    ensures { result ≡ over.own cells marks }
{
    CommandSize { cells, marks }
}

/// Two parts one behind the other, and what the command has itself.
pub(crate) fn joined(
    x: CommandSize,
    y: CommandSize,
    cells: u32,
    marks: u32,
) -> Result<CommandSize, Memory>
    ensures { IfOk result (λ r. r ≡ over.joined x y cells marks) }
{
    Ok(CommandSize {
        cells: sum(sum(x.cells, y.cells)?, cells)?,
        marks: sum(sum(x.marks, y.marks)?, marks)?,
    })
}

/// An expression whose value is used.
pub(crate) fn as_value(x: TermSize) -> CommandSize
    ensures { result ≡ over.as_value x }
{
    own(x.cells, x.marks)
}

/// A condition that goes on elsewhere where it holds.
pub(crate) fn when_holds(x: TermSize) -> CommandSize
    ensures { result ≡ over.when_holds x }
{
    own(x.tested, x.marks_when)
}

/// A condition that goes on elsewhere where it fails.
pub(crate) fn when_fails(x: TermSize) -> CommandSize
    ensures { result ≡ over.when_fails x }
{
    own(x.tested, x.marks_unless)
}

/// A call for its effect.
pub(crate) fn invoke(xs: TermsSize) -> Result<Size, Memory>
    ensures { IfOk result (λ r. r ≡ size.Command (over.invoke_over xs)) }
{
    let marks = sum(xs.marks, 1)?;
    Ok(Size::Command(own(xs.cells, marks)))
}

/// The same of two parts as a node.
pub(crate) fn pair(x: CommandSize, y: CommandSize, cells: u32, marks: u32) -> Result<Size, Memory>
    ensures { IfOk result (λ r. r ≡ size.Command (over.joined x y cells marks)) }
{
    Ok(Size::Command(joined(x, y, cells, marks)?))
}

/// A condition where there is one, and two parts behind it.
fn triple(e: CommandSize, x: CommandSize, y: CommandSize, marks: u32) -> Result<Size, Memory>
    ensures { IfOk result (λ r. r ≡ size.Command (over.joined e (over.joined x y 0 marks) 0 1)) }
{
    let inside = joined(x, y, 0, marks)?;
    pair(e, inside, 0, 1)
}

/// `if` with `else`.
pub(crate) fn if_else(e: TermSize, x: CommandSize, y: CommandSize) -> Result<Size, Memory>
    ensures { IfOk result (λ r. r ≡ size.Command (over.joined (over.when_fails e) (over.joined x y 0 1) 0 1)) }
{
    triple(when_fails(e), x, y, 1)
}

/// `for`, by its condition, what is done and its step.
pub(crate) fn turns(e: TermSize, x: CommandSize, step: CommandSize) -> Result<Size, Memory>
    ensures { IfOk result (λ r. r ≡ size.Command (over.joined (over.when_fails e) (over.joined x step 0 2) 0 1)) }
{
    triple(when_fails(e), x, step, 2)
}

/// `for` without a condition.
pub(crate) fn endless(x: CommandSize, step: CommandSize) -> Result<Size, Memory>
    ensures { IfOk result (λ r. r ≡ size.Command (over.joined (over.own 0 0) (over.joined x step 0 2) 0 1)) }
{
    triple(own(0, 0), x, step, 2)
}
