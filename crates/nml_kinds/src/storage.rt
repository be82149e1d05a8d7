//! The cells and the number of storages.

ghost use Rattle.std.specs.Prelude.{◌≡◌, ◌≤◌, ◌+◌, ◌&&◌, ◌∷◌, min, nat_le, nat_lt, List};
ghost use Rattle.nml_names.specs.Note.{noted};
ghost use Rattle.nml_tree.specs.Table.{table};
ghost use Rattle.nml_tree.specs.WidthFault as spec;
ghost use Rattle.nml_tree.specs.declared.tree.Item as declared_item;
ghost use Rattle.nml_tree.specs.declared.tree.Item.TheVariants as item;

use nml_known::Names;
use nml_names::note;
use nml_tree::{Item, Storage};

/// The most cells of all storages together.
const MOST_CELLS: u32 = 1048576;

/// The most storages.
const MOST_STORAGES: u32 = 65536;

/// How many cells and how many storages there are, no more than one above the most, and the least place so far.
#[derive(Clone, Copy)]
struct Stored {
    cells: u32,
    storages: u32,
    found: Option<u32>,
}

/// So many cells more.
fn more_cells(cells: u32, size: u128) -> u32
    requires { cells ≤ 1048577 }
    ensures { result ≡ min (cells + size) 1048577 }
{
    let room = 1048577 - cells;
    if size < u128::from(room) {
        cells + size as u32
    } else {
        1048577
    }
}

/// One storage more.
fn more_storages(storages: u32) -> u32
    requires { storages ≤ 65537 }
    ensures { result ≡ min (storages + 1) 65537 }
{
    if storages <= MOST_STORAGES {
        storages + 1
    } else {
        65537
    }
}

/// Whether the cells become too many.
fn passes(before: u32, cells: u32) -> bool
    ensures { result ≡ (nat_le before 1048576 && nat_lt 1048576 cells) }
{
    before <= MOST_CELLS && cells > MOST_CELLS
}

/// Notes the storage where it passes a limit.
fn storage(names: &Names<'_>, s: &Storage, before: Stored) -> Stored
    requires few { (before.cells ≤ 1048577) × (before.storages ≤ 65537) }
    ensures few { (result.cells ≤ 1048577) × (result.storages ≤ 65537) }
    ensures found { (items : List declared_item.Item) → noted before.found (spec.storage_places (table names.now) before.cells before.storages (item.Storage s.now ∷ items)) ≡ noted result.found (spec.storage_places (table names.now) result.cells result.storages items) }
{
    let size = names.size_or_none(&s.size);
    let cells = more_cells(before.cells, size);
    let found = note(before.found, passes(before.cells, cells), s.name.at);
    let found = note(found, before.storages == MOST_STORAGES, s.name.at);
    Stored {
        cells,
        storages: more_storages(before.storages),
        found,
    }
}

/// The same for an item, which may be no storage.
fn item(names: &Names<'_>, i: &Item, before: Stored) -> Stored
    requires few { (before.cells ≤ 1048577) × (before.storages ≤ 65537) }
    ensures few { (result.cells ≤ 1048577) × (result.storages ≤ 65537) }
    ensures found { (items : List declared_item.Item) → noted before.found (spec.storage_places (table names.now) before.cells before.storages (i.now ∷ items)) ≡ noted result.found (spec.storage_places (table names.now) result.cells result.storages items) }
{
    match i {
        Item::Let(_, _, _, _, _) => before,
        Item::Type(_, _, _, _) => before,
        Item::Storage(s) => storage(names, s, before),
        Item::Port(_) => before,
        Item::OrRule(_) => before,
        Item::OpRule(_) => before,
        Item::ModeRule(_) => before,
    }
}

/// Notes the least storage that passes a limit.
pub fn storages(names: &Names<'_>, found: Option<u32>) -> Option<u32>
    ensures { result ≡ noted found (spec.storage_places (table names.now) 0 0 names.now.items) }
{
    let mut stored = Stored {
        cells: 0,
        storages: 0,
        found,
    };
    for i in names.items() {
        stored = item(names, i, stored);
    }
    stored.found
}
