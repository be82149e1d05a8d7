//! What is counted of a command, over what is counted of its parts.

ghost use Rattle.std.specs.Prelude.{◌≡◌, ◌+◌, max, IfOk};
ghost use Rattle.c_tally.specs.Over as over;
ghost use Rattle.c_tally.specs.declared.tally.Tally.TheVariants as tally;

use crate::tally::{ArgumentsTally, CommandTally, Tally, TermTally};
use crate::term::{greater, sum};
use nk_base::Memory;

/// A largest statement of so many nodes wherever it stands, and so many calls.
pub(crate) fn own(nodes: u32, calls: u32) -> CommandTally
    ensures { result ≡ over.own nodes calls }
{
    CommandTally {
        in_main: nodes,
        elsewhere: nodes,
        calls,
    }
}

/// Two parts.
fn joined(x: CommandTally, y: CommandTally) -> Result<CommandTally, Memory>
    ensures { IfOk result (λ r. r ≡ over.joined x y) }
{
    let calls = sum(x.calls, y.calls)?;
    Ok(CommandTally {
        in_main: greater(x.in_main, y.in_main),
        elsewhere: greater(x.elsewhere, y.elsewhere),
        calls,
    })
}

/// An expression whose value stands in a statement with so many other nodes.
fn used(others: u32, x: TermTally) -> Result<CommandTally, Memory>
    ensures { IfOk result (λ r. r ≡ over.used others x) }
{
    let nodes = sum(others, x.left)?;
    Ok(own(greater(x.largest, nodes), x.calls))
}

/// An expression as a condition.
pub(crate) fn tested(x: TermTally) -> CommandTally
    ensures { result ≡ over.tested x }
{
    own(x.tested, x.calls)
}

/// An assignment to a variable, or what prints a value.
pub(crate) fn single(x: TermTally) -> Result<Tally, Memory>
    ensures { IfOk result (λ r. r ≡ tally.Command (over.used 0 x)) }
{
    Ok(Tally::Command(used(0, x)?))
}

/// An assignment to an element, by its index and its value, which stands in a statement with so many other nodes.
pub(crate) fn stored(i: TermTally, others: u32, e: TermTally) -> Result<Tally, Memory>
    ensures { IfOk result (λ r. r ≡ tally.Command (over.joined (over.used 0 i) (over.used others e))) }
{
    let index = used(0, i)?;
    let value = used(others, e)?;
    Ok(Tally::Command(joined(index, value)?))
}

/// A call for its effect.
pub(crate) fn invoke(xs: ArgumentsTally) -> Result<Tally, Memory>
    ensures { IfOk result (λ r. r ≡ tally.Command (over.invoke_over xs)) }
{
    let calls = sum(xs.calls, 1)?;
    Ok(Tally::Command(own(greater(xs.largest, 1), calls)))
}

/// Two parts as a node.
pub(crate) fn pair(x: CommandTally, y: CommandTally) -> Result<Tally, Memory>
    ensures { IfOk result (λ r. r ≡ tally.Command (over.joined x y)) }
{
    Ok(Tally::Command(joined(x, y)?))
}

/// Three parts as a node.
pub(crate) fn triple(e: CommandTally, x: CommandTally, y: CommandTally) -> Result<Tally, Memory>
    ensures { IfOk result (λ r. r ≡ tally.Command (over.joined e (over.joined x y))) }
{
    let inside = joined(x, y)?;
    pair(e, inside)
}

/// `return` with a value, which in `main` is dropped.
pub(crate) fn returned(x: TermTally) -> Result<Tally, Memory>
    ensures { IfOk result (λ r. r ≡ tally.Command (over.returned_over x)) }
{
    Ok(Tally::Command(CommandTally {
        in_main: x.largest,
        elsewhere: greater(x.largest, x.left),
        calls: x.calls,
    }))
}
