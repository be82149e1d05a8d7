//! The storages of a description, by name and by number.

ghost use Rattle.std.specs.Prelude.{◌≡◌, [], ℕ, List, None, Some, IfOk, OnOk, cond, filter, length, slice_get, unsigned_abs};
ghost use Rattle.std.specs.Map.{lookup};
ghost use Rattle.std.specs.Option.{option_or};
ghost use Rattle.asm_data.specs.Storages.{AreStorages, HasNumbers, IsGiven, IsSound, number_in, number_named};
ghost use Rattle.asm_lines.specs.Seen.{seen_data};
ghost use Rattle.nk_base.specs.Number as number;
ghost use Rattle.nk_base.specs.Number.{IsTy, width_of};
ghost use Rattle.nk_base.specs.Text.{text_eq};
ghost use Rattle.nml_tree.specs.Table as spec;
ghost use Rattle.nml_tree.specs.Table.{Table, declared, entries, entry, table};
ghost use Rattle.nml_tree.specs.Valid.{IsWordWidth};

use asm_lines::Data;
use image_file::Layout;
use image_layout::layout_of;
use indexmap::IndexMap;
use nk_base::{Memory, Text, Ty, low_bits};
use nk_range::is_in_range;
use nml_names::declared_name;
use nml_tree::{Checked, Item, Name, PortWord};
use std::alloc::Global;

/// A cell: the number of its storage, over `mem` and `reg` in the text's order, and its number in the storage.
#[derive(Clone, Copy, PartialEq, Eq, PartialOrd, Ord)]
pub struct Cell {
    pub storage: u16,
    pub cell: u32,
}

/// The storages of a description: the number of each by its name, and by that number how many cells it has, and their type.
///
/// A name that is declared first as something else has no number.
#[derive(Drop)]
pub struct Storages {
    numbers: IndexMap<Text, Option<usize>>,
    layout: Layout,
}

/// The storages of the description, whose words have so many bits. The one error is want of memory.
pub fn storages_of(alloc: Global, d: &Checked, width: u32) -> Result<Storages, Memory>
    requires { IsWordWidth (table d.now) width }
    ensures are { IfOk result (λ s. AreStorages (table d.now) s) }
    ensures sound { IfOk result IsSound }
{
    let layout = layout_of(alloc, d, width)?;
    let desc = &d.typed.desc;
    let numbers = numbers_of(alloc, desc.items.as_slice())?;
    Ok(Storages { numbers, layout })
}

/// For each name that the items declare the number of its storage, if its first declaration is one.
fn numbers_of(alloc: Global, items: &[Item]) -> Result<IndexMap<Text, Option<usize>>, Memory>
    ensures { IfOk result (λ m. HasNumbers (entries [] items.now) m.entries) }
{
    let mut numbers = IndexMap::new(alloc);
    let mut count = 0;
    for item in items {
        let number = number_of(item, count);
        add(&mut numbers, declared_name(item), number)?;
        count += usize::from(number.is_some());
    }
    Ok(numbers)
}

/// The number of the storage that the item declares, where so many stand before it; `None` of another item.
fn number_of(item: &Item, count: usize) -> Option<usize>
    ensures { (t : Table) → count ≡ length (filter spec.is_storage t) → result ≡ number_in (entry t item.now).1 }
{
    match item {
        Item::Storage(_) => Some(count),
        Item::Let(_, _, _, _, _) => None,
        Item::Type(_, _, _, _) => None,
        Item::Port(port) => match port.word {
            PortWord::Trn(_) => None,
            PortWord::Inp(_) => None,
            PortWord::Out(_) => None,
        },
        Item::OrRule(_) => None,
        Item::OpRule(_) => None,
        Item::ModeRule(_) => None,
    }
}

/// Adds the name with the number. A name that is there stays as it is.
fn add(
    numbers: &mut IndexMap<Text, Option<usize>>,
    name: &Name,
    number: Option<usize>,
) -> Result<(), Memory>
    ensures { OnOk result ((q : List ℕ) → lookup (text_eq q) numbers.new.entries ≡ option_or (lookup (text_eq q) numbers.old.entries) (cond (text_eq q name.now.text) (Some number) None)) }
{
    if !numbers.contains_key(&name.text) {
        numbers.insert(name.text.clone()?, number)?;
    }
    Ok(())
}

/// How many cells the storage of this number has, and their type.
fn row_at(storages: &[(u32, Ty)], number: usize) -> Option<(u32, Ty)>
    ensures { result ≡ slice_get storages.now number }
{
    storages.get(number).copied()
}

/// The value modulo 2^n, for a type of n bits.
fn raw_of(ty: Ty, value: i128) -> u64
    requires { IsTy ty }
    ensures { result ≡ unsigned_abs (number.low_bits (width_of ty) value) }
{
    low_bits(value, ty.width()) as u64
}

impl Storages {
    /// The number of the storage of this name, if it is the name of one.
    fn number(&self, name: &Text) -> Option<usize>
        ensures { (t : Table) → HasNumbers t self.now.numbers.entries → result ≡ number_named (declared t name.now) }
    {
        match self.numbers.get(name) {
            None => None,
            Some(number) => *number,
        }
    }

    /// The cell that the line gives, and the value modulo 2^n, n being the cell's bits; `None` where the line names no cell of a storage other
    /// than PC, or the value is out of range.
    pub fn given(&self, data: &Data) -> Option<(Cell, u64)>
        requires { IsSound self.now }
        ensures { (t : Table) → AreStorages t self.now → IsGiven t (seen_data data.now) result }
    {
        let number = self.number(&data.name)?;
        let (size, ty) = row_at(self.layout.storages.as_slice(), number)?;
        if number == self.layout.pc as usize
            || data.cell >= u128::from(size)
            || !is_in_range(ty, data.value)
        {
            return None;
        }
        let cell = Cell {
            storage: number as u16,
            cell: data.cell as u32,
        };
        Some((cell, raw_of(ty, data.value)))
    }
}
