//! The data cells that the lines of an assembly text give.

ghost use Rattle.std.specs.Prelude.{◌≡◌, map, filter, true, IfOk, MatchResult};
ghost use Rattle.asm_data.specs.Given.{GiveData, IsDataFault, begun};
ghost use Rattle.asm_data.specs.Values.{initials, is_some_value};
ghost use Rattle.asm_lines.specs.Seen.{seen};
ghost use Rattle.asm_text.specs.Assembled.{rise};
ghost use Rattle.nml_tree.specs.Table.{table};
ghost use Rattle.nml_tree.specs.Valid.{IsWordWidth};

use crate::storages::{Cell, storages_of};
use crate::values::values_of;
use asm_lines::Line;
use asm_text::AsmFault;
use image_file::DataCell;
use nk_base::Memory;
use nml_tree::Checked;
use std::alloc::Global;
use std::collections::BTreeMap;

/// The data cells that the `.data` lines give, in rising order of storage, then cell: each value modulo 2^n, n being the cell's bits, and no
/// cell whose value is 0. `width` is how many bits a word of the description has.
///
/// The errors are want of memory, and `Data` with the number of the first `.data` line, lines counting from 1, that names no cell of a `mem`
/// or `reg` other than PC, has a value out of range of the cell's type, or gives a cell that an earlier line gave, if only the value 0. It
/// takes time linear in the description, and for each line the logarithm of how many cells are given. The rule is this project's own.
pub fn data_cells(
    alloc: Global,
    d: &Checked,
    width: u32,
    lines: &[Line],
) -> Result<Vec<DataCell>, AsmFault>
    requires { IsWordWidth (table d.now) width }
    ensures { MatchResult result (λ cells. GiveData (table d.now) (map seen lines.now) cells.items) (λ f. IsDataFault (table d.now) (map seen lines.now) f) }
{
    let storages = storages_of(alloc, d, width)?;
    let values = values_of(alloc, &storages, lines)?;
    Ok(cells_of(alloc, &values)?)
}

/// The cells whose values aren't 0, in order. The one error is want of memory.
fn cells_of(alloc: Global, values: &BTreeMap<Cell, u64>) -> Result<Vec<DataCell>, Memory>
    ensures are { IfOk result (λ v. map begun v.items ≡ filter is_some_value (initials values.now.entries)) }
    ensures rise { IfOk result (λ v. rise (map begun v.items) ≡ true) }
{
    let mut cells = Vec::new(alloc);
    for (cell, value) in values {
        if *value > 0 {
            cells.push(DataCell {
                storage: cell.storage,
                cell: cell.cell,
                value: *value,
            })?;
        }
    }
    Ok(cells)
}
