//! The lines of initial values.

ghost use Rattle.std.specs.Prelude.{◌≡◌, ◌<◌, ◌^◌, ◌++◌, ◌∷◌, [], OnOk, map, pos};
ghost use Rattle.std.specs.List.{AllByRecursion};
ghost use Rattle.asm_text.specs.Canonical.{data_line, ended};
ghost use Rattle.disasm_tool.specs.Lines.{HasStorage};
ghost use Rattle.image_file.specs.Measured.{initial};
ghost use Rattle.image_file.specs.Seen.{init_of};
ghost use Rattle.nk_base.specs.Number.{IsTy, width_of, wrapped};
ghost use Rattle.nml_tree.specs.Table.{table};

use crate::decimal::push_decimal;
use crate::storages::Storages;
use image_file::DataCell;
use nk_base::{Memory, Text, Ty, wrap};

/// Appends a line for each initial value.
pub fn push_cells(storages: &Storages<'_>, cells: &[DataCell], out: &mut Text) -> Result<(), Memory>
    requires { AllByRecursion (HasStorage (table storages.now)) (map init_of cells.now) }
    ensures { OnOk result (out.new ≡ out.old ++ ended (map (data_line (table storages.now)) (map initial (map init_of cells.now)))) }
{
    for cell in cells {
        push_cell(storages, *cell, out)?;
    }
    Ok(())
}

/// Appends the line of an initial value.
fn push_cell(storages: &Storages<'_>, cell: DataCell, out: &mut Text) -> Result<(), Memory>
    requires { HasStorage (table storages.now) (init_of cell) }
    ensures { OnOk result (out.new ≡ out.old ++ (data_line (table storages.now) (initial (init_of cell)) ++ 10 ∷ [])) }
{
    let storage = usize::from(cell.storage);
    let number = number_of(storages.ty(storage), cell.value);
    out.push_bytes(b".data ".as_slice())?;
    out.push_bytes(storages.name(storage).as_bytes())?;
    out.push(b' ')?;
    push_decimal(i128::from(cell.cell), out)?;
    out.push(b' ')?;
    push_decimal(number, out)?;
    out.push(b'\n')
}

/// The number of the type whose lowest bits are these.
fn number_of(ty: Ty, bits: u64) -> i128
    requires ty { IsTy ty }
    requires bits { bits < 2 ^ width_of ty }
    ensures { result ≡ wrapped ty (pos bits) }
{
    wrap(ty, i128::from(bits))
}
