//! The homes of constants, bases and labels, and what cells hold at the start.

ghost use Rattle.std.specs.Prelude.{◌≡◌, ◌+◌, ◌++◌, ◌≤◌, map, length, pos, OnOk, IfOk};
ghost use Rattle.ir_core.specs.Operator.{wrap};
ghost use Rattle.ir_run.specs.Entry.{entry};
ghost use Rattle.ir_run.specs.Value as value;
ghost use Rattle.c_tree.specs.Lowered as lowered;
ghost use Rattle.c_homes.specs.Places.{constants_from, homes_from, homes_shown, start_from};

use crate::label::return_labels;
use crate::number::push_numbers;
use crate::sum::sum;
use c_order::{in_order, label_value, wrapped};
use ir_run::{Homes, Stmt};
use nk_base::Memory;
use sqlite_items::Items;
use std::alloc::Global;

/// The arrays' lengths behind the others, wrapped.
fn push_lengths(arrays: &[(u32, u32)], n: u32, out: &mut Vec<i64>) -> Result<(), Memory>
    requires least { 16 ≤ n }
    requires most { n ≤ 32 }
    ensures { OnOk result (out.new.items ≡ out.old.items ++ map (λ (cell, length). wrap n (pos length)) arrays.now) }
{
    for (_, length) in arrays {
        out.push(wrapped(i64::from(*length), n))?;
    }
    Ok(())
}

/// -1, 0, 1, each array's length and each number in a tree, wrapped, in rising order, each once.
fn constants_of(
    alloc: Global,
    statements: &[Stmt],
    arrays: &[(u32, u32)],
    n: u32,
) -> Result<Vec<i64>, Memory>
    requires least { 16 ≤ n }
    requires most { n ≤ 32 }
    ensures { IfOk result (λ zs. zs.items ≡ constants_from arrays.now (map entry statements.now) n) }
{
    let mut numbers = Vec::from_slice(alloc, &[-1, 0, 1])?;
    push_lengths(arrays, n, &mut numbers)?;
    push_numbers(statements, &mut numbers)?;
    in_order(numbers)
}

/// The first cells of arrays.
fn first_cells(alloc: Global, arrays: &[(u32, u32)]) -> Result<Vec<u32>, Memory>
    ensures { IfOk result (λ ks. ks.items ≡ map (λ (cell, length). cell) arrays.now) }
{
    let mut cells = Vec::new(alloc);
    for (cell, _) in arrays {
        cells.push(*cell)?;
    }
    Ok(cells)
}

/// Each of these in a cell of its own, from a cell on, and the cell behind them.
///
/// The one error is want of memory; a number of 2^32 or more counts as such.
fn numbered<T: Copy + Drop>(
    alloc: Global,
    first: u32,
    of: &[T],
) -> Result<(Items<(u32, T)>, u32), Memory>
    ensures { IfOk result (λ r. (r.0 ≡ lowered.numbered first of.now) × (r.1 ≡ first + length of.now)) }
{
    let mut cells = Items::new(alloc);
    let mut cell = first;
    for x in of {
        cells.push((cell, *x))?;
        cell = sum(cell, 1)?;
    }
    Ok((cells, cell))
}

/// The homes of constants, bases and return labels, from a cell on.
///
/// The one error is want of memory; a number of 2^32 or more counts as such.
pub fn homes_of(
    alloc: Global,
    statements: &[Stmt],
    arrays: &[(u32, u32)],
    first: u32,
    n: u32,
) -> Result<Homes, Memory>
    requires least { 16 ≤ n }
    requires most { n ≤ 32 }
    ensures { IfOk result (λ h. homes_shown h ≡ homes_from first arrays.now (map entry statements.now) n) }
{
    let constants = constants_of(alloc, statements, arrays, n)?;
    let cells = first_cells(alloc, arrays)?;
    let labels = return_labels(alloc, statements)?;
    let (consts, first_base) = numbered(alloc, first, constants.as_slice())?;
    let (bases, first_label) = numbered(alloc, first_base, cells.as_slice())?;
    let (labels, temps) = numbered(alloc, first_label, labels.as_slice())?;
    Ok(Homes {
        consts,
        bases,
        labels,
        temps,
    })
}

/// A cell with its value, wrapped.
fn wrapped_value(x: (u32, i64), n: u32) -> (u32, i64)
    requires least { 16 ≤ n }
    requires most { n ≤ 32 }
    ensures { result ≡ (x.0, wrap n x.1) }
{
    (x.0, wrapped(x.1, n))
}

/// Cells with their values behind the others, wrapped.
fn push_values(values: &[(u32, i64)], n: u32, out: &mut Items<(u32, i64)>) -> Result<(), Memory>
    requires least { 16 ≤ n }
    requires most { n ≤ 32 }
    ensures { OnOk result (out.new ≡ out.old ++ map (λ (k, z). (k, wrap n z)) values.now) }
{
    for x in values {
        out.push(wrapped_value(*x, n))?;
    }
    Ok(())
}

/// Cells with their values behind the others, as they are.
fn push_constants(values: &[(u32, i64)], out: &mut Items<(u32, i64)>) -> Result<(), Memory>
    ensures { OnOk result (out.new ≡ out.old ++ values.now) }
{
    for x in values {
        out.push(*x)?;
    }
    Ok(())
}

/// Cells with first cells of arrays behind the others, wrapped.
fn push_bases(bases: &[(u32, u32)], n: u32, out: &mut Items<(u32, i64)>) -> Result<(), Memory>
    requires least { 16 ≤ n }
    requires most { n ≤ 32 }
    ensures { OnOk result (out.new ≡ out.old ++ map (λ (k, c). (k, wrap n (pos c))) bases.now) }
{
    for (cell, base) in bases {
        out.push((*cell, wrapped(i64::from(*base), n)))?;
    }
    Ok(())
}

/// Cells with labels behind the others, as values.
fn push_labels(labels: &[(u32, u32)], out: &mut Items<(u32, i64)>) -> Result<(), Memory>
    ensures { OnOk result (out.new ≡ out.old ++ map (λ (k, l). (k, value.label_value l)) labels.now) }
{
    for (cell, label) in labels {
        out.push((*cell, label_value(*label)))?;
    }
    Ok(())
}

/// What cells hold at the start: values of `n` bits, wrapped, and the homes' constants, first cells and labels. A label l is kept as 2^32 + l.
///
/// The one error is want of memory.
pub fn start_of(
    alloc: Global,
    values: &[(u32, i64)],
    homes: &Homes,
    n: u32,
) -> Result<Items<(u32, i64)>, Memory>
    requires least { 16 ≤ n }
    requires most { n ≤ 32 }
    ensures { IfOk result (λ s. s ≡ start_from values.now (homes_shown homes.now) n) }
{
    let mut start = Items::new(alloc);
    push_values(values, n, &mut start)?;
    push_constants(homes.consts.as_slice(), &mut start)?;
    push_bases(homes.bases.as_slice(), n, &mut start)?;
    push_labels(homes.labels.as_slice(), &mut start)?;
    Ok(start)
}
