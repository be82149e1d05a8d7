ghost use Rattle.std.specs.Prelude.{◌≡◌, ◌^◌, ◌&&◌, nat_lt};
ghost use Rattle.nk_base.specs.Number.{width_of};
ghost use Rattle.image_file.specs.Seen.{init_of, measures_of};
ghost use Rattle.image_file.specs.Parts.{option_init};
ghost use Rattle.image_file.specs.Refused as spec;
ghost use Rattle.image_file.specs.Valid as valid;

use crate::{DataCell, Layout};
use nk_base::Ty;

/// Whether the number is that of a storage other than PC.
pub fn is_storage(layout: &Layout, storage: u16) -> bool
    ensures { result ≡ valid.is_storage (measures_of layout.now) storage }
{
    (storage as usize) < layout.storages.len() && u32::from(storage) != layout.pc
}

/// Whether the data cell's storage is none before that of the one before it.
pub fn is_storage_behind(before: Option<DataCell>, cell: DataCell) -> bool
    ensures { result ≡ spec.is_storage_behind (option_init before) (init_of cell) }
{
    match before {
        None => true,
        Some(before) => before.storage <= cell.storage,
    }
}

/// Whether the data cell is a cell of its storage.
pub fn is_cell(layout: &Layout, cell: DataCell) -> bool
    ensures { result ≡ valid.is_cell (measures_of layout.now) cell.storage cell.cell }
{
    match layout.storages.as_slice().get(cell.storage as usize) {
        None => false,
        Some((size, _)) => cell.cell < *size,
    }
}

/// Whether the data cell is behind the one before it, where they are of one storage.
pub fn is_cell_behind(before: Option<DataCell>, cell: DataCell) -> bool
    ensures { result ≡ spec.is_cell_behind (option_init before) (init_of cell) }
{
    match before {
        None => true,
        Some(before) => before.storage != cell.storage || before.cell < cell.cell,
    }
}

/// Whether the number is below 2^n.
fn is_narrow(value: u64, n: u32) -> bool
    ensures { result ≡ nat_lt value (2 ^ n) }
{
    n >= 64 || value < 1u64 << n
}

/// Whether the value is above 0 and has no more bits than the type.
fn is_value(value: u64, ty: Ty) -> bool
    ensures { result ≡ (nat_lt 0 value && nat_lt value (2 ^ width_of ty)) }
{
    0 < value && is_narrow(value, ty.width())
}

/// Whether the value is above 0 and has no more bits than the storage's type.
pub fn is_raw(layout: &Layout, cell: DataCell) -> bool
    ensures { result ≡ valid.is_raw (measures_of layout.now) cell.storage cell.value }
{
    match layout.storages.as_slice().get(cell.storage as usize) {
        None => false,
        Some((_, ty)) => is_value(cell.value, *ty),
    }
}
