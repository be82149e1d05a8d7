//! What is counted of an expression and of arguments, over what is counted of their parts.

ghost use Rattle.std.specs.Prelude.{◌≡◌, ◌+◌, IfOk};
ghost use Rattle.c_tree.specs.Code.{one_if, is_saved};
ghost use Rattle.c_count.specs.Over as over;
ghost use Rattle.c_count.specs.declared.size.Size.TheVariants as size;

use crate::size::{Size, TermSize, TermsSize};
use c_tree::Place;
use nk_base::Memory;

/// A sum; one of 2^32 or more counts as want of memory.
pub(crate) fn sum(a: u32, b: u32) -> Result<u32, Memory>
    ensures { IfOk result (λ n. n ≡ a + b) }
{
    match a.checked_add(b) {
        Some(n) => Ok(n),
        None => Err(Memory),
    }
}

/// The step cells of what stands left of a part in which a call begins, or none does.
fn before(call: bool, later: u32, now: u32) -> u32
    ensures { result ≡ over.before call later now }
{
    if call { later } else { now }
}

/// An expression that is a value before it is a condition.
pub(crate) fn plain(call: bool, cells: u32, later: u32, marks: u32) -> TermSize
    ensures { result ≡ over.plain call cells later marks }
{
    TermSize {
        call,
        cells,
        tested: cells,
        later_cells: later,
        later_tested: later,
        marks,
        marks_when: marks,
        marks_unless: marks,
    }
}

/// An expression that is a condition: as a value it has a step cell and a label more.
fn condition(call: bool, tested: u32, later: u32, when: u32, unless: u32) -> Result<Size, Memory>
    ensures { IfOk result (λ r. r ≡ size.Term (over.condition call tested later when unless)) }
{
    Ok(Size::Term(TermSize {
        call,
        cells: sum(1, tested)?,
        tested,
        later_cells: sum(1, later)?,
        later_tested: later,
        marks: sum(when, 1)?,
        marks_when: when,
        marks_unless: unless,
    }))
}

/// A variable's value: a global scalar is saved where a call begins to its right.
pub(crate) fn scalar(place: Place) -> TermSize
    ensures { result ≡ over.scalar_over place }
{
    match place {
        Place::Global(_) => plain(false, 0, 1, 0),
        Place::Local(_) => plain(false, 0, 0, 0),
    }
}

/// An array's element, by its index.
pub(crate) fn element(x: TermSize) -> Result<Size, Memory>
    ensures { IfOk result (λ r. r ≡ size.Term (over.element_over x)) }
{
    let cells = sum(x.cells, 1)?;
    let later = sum(x.later_cells, 1)?;
    Ok(Size::Term(plain(x.call, cells, later, x.marks)))
}

/// A call, by its arguments.
pub(crate) fn call(xs: TermsSize) -> Result<Size, Memory>
    ensures { IfOk result (λ r. r ≡ size.Term (over.call_over xs)) }
{
    let cells = sum(xs.cells, 1)?;
    let later = sum(xs.later_cells, 1)?;
    let marks = sum(xs.marks, 1)?;
    Ok(Size::Term(plain(true, cells, later, marks)))
}

/// An operator over one value.
pub(crate) fn value(x: TermSize) -> TermSize
    ensures { result ≡ over.value_over x }
{
    plain(x.call, x.cells, x.later_cells, x.marks)
}

/// An operator over two values.
pub(crate) fn arithmetic(x: TermSize, y: TermSize) -> Result<Size, Memory>
    ensures { IfOk result (λ r. r ≡ size.Term (over.arithmetic_over x y)) }
{
    let cells = sum(before(y.call, x.later_cells, x.cells), y.cells)?;
    let later = sum(x.later_cells, y.later_cells)?;
    let marks = sum(x.marks, y.marks)?;
    Ok(Size::Term(plain(x.call || y.call, cells, later, marks)))
}

/// A comparison.
pub(crate) fn compare(x: TermSize, y: TermSize) -> Result<Size, Memory>
    ensures { IfOk result (λ r. r ≡ size.Term (over.compare_over x y)) }
{
    let cells = sum(before(y.call, x.later_cells, x.cells), y.cells)?;
    let later = sum(x.later_cells, y.later_cells)?;
    let marks = sum(x.marks, y.marks)?;
    condition(x.call || y.call, cells, later, marks, marks)
}

/// `!`
pub(crate) fn negation(x: TermSize) -> Result<Size, Memory>
    ensures { IfOk result (λ r. r ≡ size.Term (over.not_over x)) }
{
    condition(
        x.call,
        x.tested,
        x.later_tested,
        x.marks_unless,
        x.marks_when,
    )
}

/// `&&`
pub(crate) fn and_also(x: TermSize, y: TermSize) -> Result<Size, Memory>
    ensures { IfOk result (λ r. r ≡ size.Term (over.and_over x y)) }
{
    let tested = sum(before(y.call, x.later_tested, x.tested), y.tested)?;
    let later = sum(x.later_tested, y.later_tested)?;
    let when = sum(sum(x.marks_unless, y.marks_when)?, 1)?;
    let unless = sum(x.marks_unless, y.marks_unless)?;
    condition(x.call || y.call, tested, later, when, unless)
}

/// `||`
pub(crate) fn or_else(x: TermSize, y: TermSize) -> Result<Size, Memory>
    ensures { IfOk result (λ r. r ≡ size.Term (over.or_over x y)) }
{
    let tested = sum(before(y.call, x.later_tested, x.tested), y.tested)?;
    let later = sum(x.later_tested, y.later_tested)?;
    let when = sum(x.marks_when, y.marks_when)?;
    let unless = sum(sum(x.marks_when, y.marks_unless)?, 1)?;
    condition(x.call || y.call, tested, later, when, unless)
}

/// No arguments.
pub(crate) fn no_arguments() -> TermsSize
    ensures { result ≡ over.no_arguments }
{
    TermsSize {
        call: false,
        cells: 0,
        later_cells: 0,
        marks: 0,
    }
}

/// An argument, and those behind it.
pub(crate) fn more(x: TermSize, xs: TermsSize) -> Result<Size, Memory>
    ensures { IfOk result (λ r. r ≡ size.Arguments (over.more_over x xs)) }
{
    let cell = sum(before(xs.call, x.later_cells, x.cells), 1)?;
    let later = sum(x.later_cells, 1)?;
    Ok(Size::Arguments(TermsSize {
        call: x.call || xs.call,
        cells: sum(cell, xs.cells)?,
        later_cells: sum(later, xs.later_cells)?,
        marks: sum(x.marks, xs.marks)?,
    }))
}
