//! What is counted of an expression and of arguments, over what is counted of their parts.

ghost use Rattle.std.specs.Prelude.{◌≡◌, ◌+◌, max, false, IfOk};
ghost use Rattle.c_counted.specs.Counted.{shifted_nodes};
ghost use Rattle.c_tally.specs.Over as over;
ghost use Rattle.c_tally.specs.declared.tally.Tally.TheVariants as tally;

use crate::tally::{ArgumentsTally, Tally, TermTally};
use c_tree::Place;
use nk_base::Memory;

/// A sum; one of 2^32 or more counts as want of memory.
pub(crate) fn sum(a: u32, b: u32) -> Result<u32, Memory>
    ensures { IfOk result (λ n. n ≡ a + b) }
{
    match a.checked_add(b) {
        Some(n) => Ok(n),
        None => Err(Memory),
    }
}

/// The greater of two numbers.
pub(crate) fn greater(a: u32, b: u32) -> u32
    ensures { result ≡ max a b }
{
    if a < b { b } else { a }
}

/// What is counted of what stands left of a part in which a call begins, or none does.
fn before(call: bool, later: u32, now: u32) -> u32
    ensures { result ≡ over.before call later now }
{
    if call { later } else { now }
}

/// The number 0.
pub(crate) fn zero() -> TermTally
    ensures { result ≡ over.plain false 1 0 0 0 }
{
    TermTally {
        call: false,
        left: 1,
        largest: 0,
        tested: 2,
        later_largest: 0,
        later_tested: 2,
        calls: 0,
    }
}

/// An expression that is a value before it is a condition.
fn plain(call: bool, left: u32, now: u32, later: u32, calls: u32) -> Result<Tally, Memory>
    ensures { IfOk result (λ r. r ≡ tally.Term (over.plain call left now later calls)) }
{
    let test = sum(left, 1)?;
    Ok(Tally::Term(TermTally {
        call,
        left,
        largest: now,
        tested: greater(now, test),
        later_largest: later,
        later_tested: greater(later, test),
        calls,
    }))
}

/// An expression that is a condition: of its value a cell is left.
fn condition(call: bool, now: u32, later: u32, calls: u32) -> Tally
    ensures { result ≡ tally.Term (over.condition call now later calls) }
{
    Tally::Term(TermTally {
        call,
        left: 1,
        largest: now,
        tested: now,
        later_largest: later,
        later_tested: later,
        calls,
    })
}

/// A number.
pub(crate) fn number() -> Tally
    ensures { result ≡ tally.Term (over.plain false 1 0 0 0) }
{
    Tally::Term(zero())
}

/// A number that is read from outside.
pub(crate) fn input() -> Result<Tally, Memory>
    ensures { IfOk result (λ r. r ≡ tally.Term (over.plain false 1 1 1 0)) }
{
    plain(false, 1, 1, 1, 0)
}

/// A variable's value: a global scalar is saved where a call begins to its right.
pub(crate) fn scalar(place: Place) -> Result<Tally, Memory>
    ensures { IfOk result (λ r. r ≡ tally.Term (over.scalar_over place)) }
{
    match place {
        Place::Global(_) => plain(false, 1, 0, 1, 0),
        Place::Local(_) => plain(false, 1, 0, 0, 0),
    }
}

/// An array's element, by its index.
pub(crate) fn element(x: TermTally) -> Result<Tally, Memory>
    ensures { IfOk result (λ r. r ≡ tally.Term (over.element_over x)) }
{
    let now = greater(greater(x.largest, x.left), 4);
    let later = greater(greater(x.later_largest, x.left), 4);
    plain(x.call, 1, now, later, x.calls)
}

/// A call, by its arguments.
pub(crate) fn call(xs: ArgumentsTally) -> Result<Tally, Memory>
    ensures { IfOk result (λ r. r ≡ tally.Term (over.call_over xs)) }
{
    let calls = sum(xs.calls, 1)?;
    plain(
        true,
        1,
        greater(xs.largest, 1),
        greater(xs.later_largest, 1),
        calls,
    )
}

/// `-` or `~` over a value.
pub(crate) fn prefixed(x: TermTally) -> Result<Tally, Memory>
    ensures { IfOk result (λ r. r ≡ tally.Term (over.prefixed_over x)) }
{
    let left = sum(1, x.left)?;
    plain(x.call, left, x.largest, x.later_largest, x.calls)
}

/// The nodes of a shifted tree: a shift by 0 has none of its own.
fn shifted_left(by: u64, left: u32) -> Result<u32, Memory>
    ensures { IfOk result (λ n. n ≡ shifted_nodes by left) }
{
    if by == 0 {
        return Ok(left);
    }
    sum(1, left)
}

/// A shift of a value.
pub(crate) fn shifted(by: u64, x: TermTally) -> Result<Tally, Memory>
    ensures { IfOk result (λ r. r ≡ tally.Term (over.shifted_over by x)) }
{
    let left = shifted_left(by, x.left)?;
    plain(x.call, left, x.largest, x.later_largest, x.calls)
}

/// An operator over two values.
pub(crate) fn arithmetic(x: TermTally, y: TermTally) -> Result<Tally, Memory>
    ensures { IfOk result (λ r. r ≡ tally.Term (over.arithmetic_over x y)) }
{
    let left = sum(sum(1, x.left)?, y.left)?;
    let now = greater(before(y.call, x.later_largest, x.largest), y.largest);
    let later = greater(x.later_largest, y.later_largest);
    let calls = sum(x.calls, y.calls)?;
    plain(x.call || y.call, left, now, later, calls)
}

/// A comparison.
pub(crate) fn compare(x: TermTally, y: TermTally) -> Result<Tally, Memory>
    ensures { IfOk result (λ r. r ≡ tally.Term (over.compare_over x y)) }
{
    let left = sum(x.left, y.left)?;
    let now = greater(before(y.call, x.later_largest, x.largest), y.largest);
    let later = greater(x.later_largest, y.later_largest);
    let calls = sum(x.calls, y.calls)?;
    Ok(condition(
        x.call || y.call,
        greater(now, left),
        greater(later, left),
        calls,
    ))
}

/// `!`
pub(crate) fn negation(x: TermTally) -> Tally
    ensures { result ≡ tally.Term (over.not_over x) }
{
    condition(x.call, x.tested, x.later_tested, x.calls)
}

/// `&&` or `||`.
pub(crate) fn two_conditions(x: TermTally, y: TermTally) -> Result<Tally, Memory>
    ensures { IfOk result (λ r. r ≡ tally.Term (over.two_over x y)) }
{
    let now = greater(before(y.call, x.later_tested, x.tested), y.tested);
    let later = greater(x.later_tested, y.later_tested);
    let calls = sum(x.calls, y.calls)?;
    Ok(condition(x.call || y.call, now, later, calls))
}

/// No arguments.
pub(crate) fn no_arguments() -> ArgumentsTally
    ensures { result ≡ over.no_arguments }
{
    ArgumentsTally {
        call: false,
        largest: 0,
        later_largest: 0,
        calls: 0,
    }
}

/// An argument, and those behind it.
pub(crate) fn more(x: TermTally, xs: ArgumentsTally) -> Result<Tally, Memory>
    ensures { IfOk result (λ r. r ≡ tally.Arguments (over.more_over x xs)) }
{
    let now = greater(before(xs.call, x.later_largest, x.largest), x.left);
    let later = greater(x.later_largest, x.left);
    let calls = sum(x.calls, xs.calls)?;
    Ok(Tally::Arguments(ArgumentsTally {
        call: x.call || xs.call,
        largest: greater(now, xs.largest),
        later_largest: greater(later, xs.later_largest),
        calls,
    }))
}
