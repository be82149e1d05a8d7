//! Cells of variables, and numbers as conditions and indices.

ghost use Rattle.std.specs.Prelude.{◌≡◌, ◌+◌, ◌<◌, ◌≤◌, ℕ, true, false, pos, int_le, int_lt, unsigned_abs, ◌&&◌, slice_index_or, slice_set, MatchOption, []};
ghost use Rattle.c_tree.specs.Meaning.{Frame, cell};
ghost use Rattle.c_tree.specs.Meaning as meaning;
ghost use Rattle.c_machine.specs.Filled.{filled};
ghost use Rattle.c_machine.specs.Cells.{cell_number};

use c_tree::Place;

/// A cell: how many stand before those that are counted, the variable's first one among these, and how many cells on.
///
/// There may be no such cell. The form is this project's own.
#[derive(Clone, Copy)]
pub struct Cell {
    pub base: usize,
    pub first: u128,
    pub index: u64,
}

/// The cell of an element, or of a scalar with the index 0. It takes no memory.
pub fn element_cell(base: usize, place: Place, index: u64) -> Cell
    ensures { (f : Frame) → f.base ≡ base → cell_number result ≡ cell f place + index }
{
    match place {
        Place::Global(first) => Cell {
            base: 0,
            first,
            index,
        },
        Place::Local(first) => Cell { base, first, index },
    }
}

/// The cell of a scalar. It takes no memory.
pub fn scalar_cell(base: usize, place: Place) -> Cell
    ensures { (f : Frame) → f.base ≡ base → cell_number result ≡ cell f place }
{
    element_cell(base, place, 0)
}

/// The number of the cell among so many, where it is one of them.
fn found(count: usize, at: Cell) -> Option<usize>
    ensures { MatchOption result (count ≤ cell_number at) (λ i. (i ≡ cell_number at) × (i < count)) }
{
    let first = at.first.checked_add(at.base as u128)?;
    let number = first.checked_add(u128::from(at.index))?;
    if number < count as u128 {
        Some(number as usize)
    } else {
        None
    }
}

/// What the cell holds; there is a 0 behind the last one. It takes no memory.
pub fn held(memory: &[i64], at: Cell) -> i64
    ensures { result ≡ slice_index_or memory.now (cell_number at) (pos 0) }
{
    match found(memory.len(), at) {
        None => 0,
        Some(i) => memory[i],
    }
}

/// Puts the number into the cell, where there is such a cell. It takes no memory.
pub fn put(memory: &mut Vec<i64>, at: Cell, z: i64)
    ensures { memory.new.items ≡ slice_set memory.old.items (cell_number at) z }
{
    match found(memory.len(), at) {
        None => {}
        Some(i) => memory[i] = z,
    }
}

/// Puts the number into the cell of this number, where there is one.
fn put_at(memory: &mut Vec<i64>, at: u128, z: i64)
    ensures { memory.new.items ≡ slice_set memory.old.items at z }
{
    if at < memory.len() as u128 {
        memory[at as usize] = z;
    }
}

/// Puts the arguments into these cells, the last of the list first. It takes no memory.
pub fn fill(memory: &mut Vec<i64>, arguments: &mut Vec<i64>, base: usize)
    ensures memory { memory.new.items ≡ filled memory.old.items base arguments.old.items }
    ensures done { arguments.new.items ≡ [] }
{
    let mut at = base as u128;
    while let Some(z) = arguments.pop() {
        put_at(memory, at, z);
        at += 1;
    }
}

/// Whether a number counts as true. It takes no memory.
pub fn is_true(z: i64) -> bool
    ensures { result ≡ meaning.is_true z }
{
    z != 0
}

/// A number for a truth. It takes no memory.
pub fn truth(yes: bool) -> i64
    ensures { result ≡ meaning.truth yes }
{
    if yes { 1 } else { 0 }
}

/// The index that a number is of an array of this length, where it is one. It takes no memory.
pub fn index_of(z: i64, length: u64) -> Option<u64>
    ensures { MatchOption result ((int_le (pos 0) z && int_lt z (pos length)) ≡ false) (λ j. ((int_le (pos 0) z && int_lt z (pos length)) ≡ true) × (j ≡ unsigned_abs z)) }
{
    if z < 0 {
        return None;
    }
    let index = z.unsigned_abs();
    if index < length { Some(index) } else { None }
}
