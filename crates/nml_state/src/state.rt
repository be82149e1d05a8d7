//! The state of a machine.

ghost use Rattle.std.specs.Prelude.{◌≡◌, ◌<◌, ◌==◌, ◌&&◌, ◌+◌, ℕ, [], ◌∷◌, ◌++◌, true, false, length, map, replicate, OnOk, slice_get, slice_set, unwrap_or, IfOk, MatchOption, pos, Some};
ghost use Rattle.std.specs.List.{list_any};
ghost use Rattle.nk_base.specs.Number.{InRange, wrapped};
ghost use Rattle.nml_state.specs.Cells.{HasCell, IsOf, is_kept, opened, sizes};
ghost use Rattle.nml_state.specs.Wrapping.{given_cell, given_trn, has_cell, offered, type_at, wraps, wraps_into};
ghost use Rattle.nml_tree.specs.Exec.{trn_types, with_write, with_writes};
ghost use Rattle.nml_state.specs.IsState.{AllExist, AreParts};
ghost use Rattle.nml_state.specs.RightTypes.{EachRight, ItemRight};
ghost use Rattle.nml_tree.specs.Worth.{is_type};
ghost use Rattle.nml_state.specs.SeenWrites.{seen_cells, seen_writes};
ghost use Rattle.nml_tree.specs.Table.{entries, entry, port_of, size_or_none, table, type_or_none};
ghost use Rattle.nml_tree.specs.Value.{cell, number_at};

use crate::lookup::{natural_size, type_value};
use nk_base::{Memory, Ty, wrap};
use nml_tree::{Desc, Item, Port, PortWord, Storage, Typed};
use std::alloc::Global;
use std::marker::Model;

/// A write that is kept for the end of an instruction.
#[derive(Clone, Copy)]
struct Write {
    storage: usize,
    index: usize,
    value: i128,
}

/// The state of a machine: the cells of its storages, its transitories, and the writes that are kept for the end of an
/// instruction, at most one for each cell.
///
/// Storages, cells and transitories are numbered from 0, storages and transitories in the text's order. Each value is one of its
/// type. There is room for one write per cell from the beginning, so no call but the one that makes a state takes memory. That
/// writes are made together at an instruction's end is this project's own rule.
#[derive(Drop)]
pub struct State {
    types: Vec<Ty>,
    trn_types: Vec<Ty>,
    cells: Vec<Vec<i128>>,
    trns: Vec<i128>,
    kept: Vec<Write>,
}

impl Model for State {
    ghost use Rattle.std.specs.Prelude.{vec_capacity};
    ghost use Rattle.nml_state.specs.Cells.{Shown};
    ghost use Rattle.nml_state.specs.IsState.{IsState};
    ghost use Rattle.nml_state.specs.SeenWrites.{seen_cells, seen_writes};

    ghost Value = { Shown };

    ghost view = { λ s. record { types = s.types.items; trn_types = s.trn_types.items; cells = seen_cells s.cells.items; trns = s.trns.items; kept = seen_writes s.kept.items } };

    ghost invariant = { λ s. IsState (record { types = s.types.items; trn_types = s.trn_types.items; cells = seen_cells s.cells.items; trns = s.trns.items; kept = seen_writes s.kept.items }) (vec_capacity s.kept) };
}

/// What a state is made of.
#[derive(Drop)]
struct Parts {
    types: Vec<Ty>,
    cells: Vec<Vec<i128>>,
    count: usize,
    trn_types: Vec<Ty>,
    trns: Vec<i128>,
}

impl State {
    /// The state in which a machine of the description begins: each cell and each transitory is 0, and no write is kept.
    ///
    /// The one error is want of memory.
    pub fn open(alloc: Global, d: &Typed) -> Result<State, Memory>
        ensures { IfOk result (λ s. s ≡ opened (table d.now)) }
    {
        let parts = parts_of(alloc, &d.desc)?;
        let kept = Vec::with_capacity(alloc, parts.count)?;
        Ok(State {
            types: parts.types,
            trn_types: parts.trn_types,
            cells: parts.cells,
            trns: parts.trns,
            kept,
        })
    }

    /// The type of the storage's cells. It takes no memory.
    pub fn storage_type(&self, storage: u32) -> Ty
        requires { storage < length self.now.types }
        ensures { slice_get self.now.types storage ≡ Some result }
    {
        self.types[storage as usize]
    }

    /// The type of the transitory. It takes no memory.
    pub fn trn_type(&self, n: u32) -> Ty
        requires { n < length self.now.trn_types }
        ensures { slice_get self.now.trn_types n ≡ Some result }
    {
        self.trn_types[n as usize]
    }

    /// What the cell of the storage holds. It takes no memory.
    pub fn cell(&self, storage: u32, index: u32) -> i128
        requires exists { HasCell self.now.cells storage index }
        ensures value { result ≡ cell self.now.cells storage index }
        ensures of_type { IsOf self.now.types storage result }
    {
        row_cell(&self.cells, storage, index)
    }

    /// Puts the value into the cell of the storage at once. It takes no memory.
    pub fn set(&mut self, storage: u32, index: u32, value: i128)
        requires exists { HasCell self.old.cells storage index }
        requires of_type { IsOf self.old.types storage value }
        ensures { self.new ≡ record self.old { cells = with_write self.old.cells (record { storage = storage; index = index; value = value }) } }
    {
        write_one(
            &mut self.cells,
            Write {
                storage: storage as usize,
                index: index as usize,
                value,
            },
        );
    }

    /// What the transitory of this number holds. It takes no memory.
    pub fn trn(&self, n: u32) -> i128
        requires exists { n < length self.now.trns }
        ensures value { slice_get self.now.trns n ≡ Some result }
        ensures of_type { IsOf self.now.trn_types n result }
    {
        number_in(self.trns.as_slice(), n)
    }

    /// Puts the value into the transitory of this number. It takes no memory.
    pub fn set_trn(&mut self, n: u32, value: i128)
        requires exists { n < length self.old.trns }
        requires of_type { IsOf self.old.trn_types n value }
        ensures { self.new ≡ record self.old { trns = slice_set self.old.trns n value } }
    {
        self.trns[n as usize] = value;
    }

    /// Keeps a write for the end of the instruction. It takes no memory.
    pub fn later(&mut self, storage: u32, index: u32, value: i128)
        requires exists { HasCell self.old.cells storage index }
        requires free { is_kept self.old.kept storage index ≡ false }
        requires of_type { IsOf self.old.types storage value }
        ensures { self.new ≡ record self.old { kept = self.old.kept ++ record { storage = storage; index = index; value = value } ∷ [] } }
    {
        self.kept.push_reserved(Write {
            storage: storage as usize,
            index: index as usize,
            value,
        });
    }

    /// Keeps a write for the end of the instruction, its value wrapped into the storage's type, where there is such a cell, no write of it
    /// is kept, and a `bool` gets 0 or 1; elsewhere it does nothing.
    ///
    /// It takes no memory. That a second write is left out is this project's own rule.
    pub fn offer(&mut self, storage: usize, index: u128, value: i128)
        ensures { self.new ≡ offered self.old storage index value }
    {
        let Some(value) = wrapped_into(&self.types, storage, value) else {
            return;
        };
        let Some(index) = cell_at(&self.cells, storage, index) else {
            return;
        };
        if write_is_kept(&self.kept, storage, index) {
            return;
        }
        self.kept.push_reserved(Write {
            storage,
            index,
            value,
        });
    }

    /// Gives the transitory the value, wrapped into its type; where there is none, or a `bool` would get another number than 0 or 1, it does
    /// nothing. It takes no memory.
    pub fn give_trn(&mut self, n: usize, value: i128)
        ensures { self.new ≡ given_trn self.old n value }
    {
        let Some(value) = wrapped_into(&self.trn_types, n, value) else {
            return;
        };
        put_at(&mut self.trns, n, value);
    }

    /// Gives the storage's first cell the value at once, wrapped into its type; where there is none, or a `bool` would get another number
    /// than 0 or 1, it does nothing. It takes no memory.
    pub fn give_cell(&mut self, storage: usize, value: i128)
        ensures { self.new ≡ given_cell self.old storage value }
    {
        let Some(value) = wrapped_into(&self.types, storage, value) else {
            return;
        };
        let Some(index) = cell_at(&self.cells, storage, 0) else {
            return;
        };
        write_one(
            &mut self.cells,
            Write {
                storage,
                index,
                value,
            },
        );
    }

    /// What the cell of the storage holds; 0 where there is none. It takes no memory.
    pub fn read(&self, storage: usize, index: u128) -> i128
        ensures { result ≡ cell self.now.cells storage index }
    {
        cell_or_zero(&self.cells, storage, index)
    }

    /// What the transitory of this number holds; 0 where there is none. It takes no memory.
    pub fn read_trn(&self, n: usize) -> i128
        ensures { result ≡ number_at self.now.trns n }
    {
        number_or_zero(self.trns.as_slice(), n as u128)
    }

    /// Whether a write of the storage is kept. It takes no memory.
    pub fn keeps(&self, storage: usize) -> bool
        ensures { result ≡ list_any (λ w. w.storage == storage) self.now.kept }
    {
        is_written(&self.kept, storage)
    }

    /// Each cell and each transitory holds a value of its type, 0 being held where there is none. It says so, and does nothing.
    pub fn values_fit(&self)
        ensures cells { (n i : ℕ) (ty : Ty) → slice_get self.now.types n ≡ Some ty → InRange ty (cell self.now.cells n i) }
        ensures trns { (n : ℕ) (ty : Ty) → slice_get self.now.trn_types n ≡ Some ty → InRange ty (number_at self.now.trns n) }
    {
        let _ = &self.types;
    }

    /// Makes all kept writes, keeps none from then on, and sets each transitory to 0. It takes no memory.
    pub fn commit(&mut self)
        ensures { self.new ≡ record self.old { cells = with_writes self.old.cells self.old.kept; trns = map (λ z. pos 0) self.old.trns; kept = [] } }
    {
        write_all(&mut self.cells, &self.kept);
        self.kept.clear();
        clear_all(&mut self.trns);
    }

    /// Keeps no write from then on, makes none, and sets each transitory to 0. It takes no memory.
    pub fn forget(&mut self)
        ensures { self.new ≡ record self.old { trns = map (λ z. pos 0) self.old.trns; kept = [] } }
    {
        self.kept.clear();
        clear_all(&mut self.trns);
    }
}

/// The parts of the state in which a machine begins.
fn parts_of(alloc: Global, d: &Desc) -> Result<Parts, Memory>
    requires { EachRight [] d.now.items }
    ensures { IfOk result (λ p. AreParts (table d.now) p.types.items (seen_cells p.cells.items) p.count p.trn_types.items p.trns.items) }
{
    let mut parts = Parts {
        types: Vec::new(alloc),
        cells: Vec::new(alloc),
        count: 0,
        trn_types: Vec::new(alloc),
        trns: Vec::new(alloc),
    };
    let items = d.items.as_slice();
    for i in 0..items.len() {
        add_item(alloc, &mut parts, &items[..i], &items[i])?;
    }
    Ok(parts)
}

/// Adds what an item declares; these stand before it.
fn add_item(alloc: Global, parts: &mut Parts, before: &[Item], item: &Item) -> Result<(), Memory>
    requires { ItemRight (entries [] before.now) item.now }
    ensures { OnOk result (AreParts (entries [] before.now) parts.old.types.items (seen_cells parts.old.cells.items) parts.old.count parts.old.trn_types.items parts.old.trns.items → AreParts (entries [] before.now ++ entry (entries [] before.now) item.now ∷ []) parts.new.types.items (seen_cells parts.new.cells.items) parts.new.count parts.new.trn_types.items parts.new.trns.items) }
{
    match item {
        Item::Storage(storage) => {
            add_storage(alloc, parts, before, storage)?;
            Ok(())
        }
        Item::Port(port) => {
            add_port(parts, before, port)?;
            Ok(())
        }
        Item::Let(_, _, _, _, _) => Ok(()),
        Item::Type(_, _, _, _) => Ok(()),
        Item::OrRule(_) => Ok(()),
        Item::OpRule(_) => Ok(()),
        Item::ModeRule(_) => Ok(()),
    }
}

/// Adds a storage's type and its cells.
fn add_storage(
    alloc: Global,
    parts: &mut Parts,
    before: &[Item],
    storage: &Storage,
) -> Result<(), Memory>
    requires { is_type (type_or_none (entries [] before.now) storage.now.ty) ≡ true }
    ensures types { OnOk result (parts.new.types.items ≡ parts.old.types.items ++ type_or_none (entries [] before.now) storage.now.ty ∷ []) }
    ensures cells { OnOk result (seen_cells parts.new.cells.items ≡ seen_cells parts.old.cells.items ++ replicate (size_or_none (entries [] before.now) storage.now.size) (pos 0) ∷ []) }
    ensures count { OnOk result (parts.new.count ≡ parts.old.count + size_or_none (entries [] before.now) storage.now.size) }
    ensures trns { OnOk result ((parts.new.trn_types.items ≡ parts.old.trn_types.items) × (parts.new.trns.items ≡ parts.old.trns.items)) }
{
    let size = natural_size(before, &storage.size) as usize;
    let Some(count) = parts.count.checked_add(size) else {
        return Err(Memory);
    };
    let row = vec![in alloc; 0i128; size]?;
    parts.types.push(type_value(before, &storage.ty))?;
    parts.cells.push(row)?;
    parts.count = count;
    Ok(())
}

/// Adds a transitory's type and its value.
fn add_port(parts: &mut Parts, before: &[Item], port: &Port) -> Result<(), Memory>
    requires { is_type (type_or_none (entries [] before.now) port.now.ty) ≡ true }
    ensures types { OnOk result (parts.new.trn_types.items ≡ parts.old.trn_types.items ++ trn_types ((port.now.name.text, port_of (entries [] before.now) port.now.word (type_or_none (entries [] before.now) port.now.ty)) ∷ [])) }
    ensures trns { OnOk result (parts.new.trns.items ≡ parts.old.trns.items ++ map (λ ty. pos 0) (trn_types ((port.now.name.text, port_of (entries [] before.now) port.now.word (type_or_none (entries [] before.now) port.now.ty)) ∷ []))) }
    ensures rest { OnOk result ((parts.new.types.items ≡ parts.old.types.items) × (parts.new.cells.items ≡ parts.old.cells.items) × (parts.new.count ≡ parts.old.count)) }
{
    match port.word {
        PortWord::Trn(_) => {
            parts.trn_types.push(type_value(before, &port.ty))?;
            parts.trns.push(0)?;
            Ok(())
        }
        PortWord::Inp(_) => Ok(()),
        PortWord::Out(_) => Ok(()),
    }
}

/// What the cell holds.
fn row_cell(cells: &[Vec<i128>], storage: u32, index: u32) -> i128
    requires { HasCell (seen_cells cells.now) storage index }
    ensures { result ≡ cell (seen_cells cells.now) storage index }
{
    number_in(cells[storage as usize].as_slice(), index)
}

fn number_in(row: &[i128], index: u32) -> i128
    requires { index < length row.now }
    ensures { slice_get row.now index ≡ Some result }
{
    row[index as usize]
}

/// Makes the writes in order.
fn write_all(cells: &mut Vec<Vec<i128>>, kept: &[Write])
    requires { AllExist (sizes (seen_cells cells.old.items)) (seen_writes kept.now) }
    ensures { seen_cells cells.new.items ≡ with_writes (seen_cells cells.old.items) (seen_writes kept.now) }
{
    for write in kept {
        write_one(cells, *write);
    }
}

fn write_one(cells: &mut Vec<Vec<i128>>, write: Write)
    requires { HasCell (seen_cells cells.old.items) write.storage write.index }
    ensures { seen_cells cells.new.items ≡ with_write (seen_cells cells.old.items) (record { storage = write.storage; index = write.index; value = write.value }) }
{
    put(&mut cells[write.storage], write.index, write.value);
}

fn put(row: &mut Vec<i128>, index: usize, value: i128)
    requires { index < length row.old.items }
    ensures { row.new.items ≡ slice_set row.old.items index value }
{
    row[index] = value;
}

/// Sets each to 0.
fn clear_all(numbers: &mut Vec<i128>)
    ensures { numbers.new.items ≡ map (λ z. pos 0) numbers.old.items }
{
    for i in 0..numbers.len() {
        put(numbers, i, 0);
    }
}

/// The value wrapped into the type of this number; `None` where there is no such type or it can't hold it.
fn wrapped_into(types: &[Ty], n: usize, value: i128) -> Option<i128>
    ensures { MatchOption result (wraps_into (slice_get types.now n) value ≡ false) (λ z. (wraps_into (slice_get types.now n) value ≡ true) × (z ≡ wrapped (type_at types.now n) value) × IsOf types.now n z) }
{
    match types.get(n) {
        None => None,
        Some(ty) => wrapped_value(*ty, value),
    }
}

/// The value wrapped into the type; `None` exactly where a `bool` would be another number than 0 or 1, or the type hasn't 1 to 64 bits.
///
/// It takes no memory. The rule is this project's own.
pub fn wrapped_value(ty: Ty, value: i128) -> Option<i128>
    ensures { MatchOption result (wraps ty value ≡ false) (λ z. (wraps ty value ≡ true) × (z ≡ wrapped ty value) × InRange ty z) }
{
    match ty {
        Ty::Bool => {
            if 0 <= value && value <= 1 {
                Some(value)
            } else {
                None
            }
        }
        Ty::Card(n) => {
            if 1 <= n && n <= 64 {
                Some(wrap(Ty::Card(n), value))
            } else {
                None
            }
        }
        Ty::Int(n) => {
            if 1 <= n && n <= 64 {
                Some(wrap(Ty::Int(n), value))
            } else {
                None
            }
        }
    }
}

/// The cell's number; `None` where the storage has no such cell.
fn cell_at(cells: &[Vec<i128>], storage: usize, index: u128) -> Option<usize>
    ensures { MatchOption result (has_cell (seen_cells cells.now) storage index ≡ false) (λ n. (has_cell (seen_cells cells.now) storage n ≡ true) × (n ≡ index)) }
{
    if storage < cells.len() && index < cells[storage].len() as u128 {
        Some(index as usize)
    } else {
        None
    }
}

fn write_is_kept(kept: &[Write], storage: usize, index: usize) -> bool
    ensures { result ≡ list_any (λ w. (w.storage == storage) && (w.index == index)) kept.now }
{
    kept.iter()
        .any(|w| w.storage == storage && w.index == index)
}

fn is_written(kept: &[Write], storage: usize) -> bool
    ensures { result ≡ list_any (λ w. w.storage == storage) kept.now }
{
    kept.iter().any(|w| w.storage == storage)
}

fn cell_or_zero(cells: &[Vec<i128>], storage: usize, index: u128) -> i128
    ensures { result ≡ cell (seen_cells cells.now) storage index }
{
    if storage < cells.len() {
        number_or_zero(cells[storage].as_slice(), index)
    } else {
        0
    }
}

fn number_or_zero(row: &[i128], index: u128) -> i128
    ensures { result ≡ number_at row.now index }
{
    if index < row.len() as u128 {
        row[index as usize]
    } else {
        0
    }
}

fn put_at(numbers: &mut Vec<i128>, n: usize, value: i128)
    requires { n < length numbers.old.items }
    ensures { numbers.new.items ≡ slice_set numbers.old.items n value }
{
    numbers[n] = value;
}

/// What an instruction did to the world.
#[derive(Clone, Copy, Debug, PartialEq, Eq)]
pub enum Exec {
    /// It ran: its output if there was one, whether it took input, and the halt code if it stops the machine.
    Done {
        out: Option<i64>,
        took: bool,
        halt: Option<u8>,
    },
    /// It reads the input, and there is none; nothing was done.
    Wants,
}
