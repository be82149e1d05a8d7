//! By what the images of a description are measured.

ghost use Rattle.std.specs.Prelude.{◌≡◌, ◌≤◌, ℕ, [], ◌∷◌, ◌++◌, true, Some, IfOk, OnOk, map, slice_get, unwrap_or};
ghost use Rattle.image_file.specs.Measured.{measures};
ghost use Rattle.image_file.specs.Seen.{measures_of};
ghost use Rattle.image_layout.specs.Stored.{IsRight, listed};
ghost use Rattle.nk_base.specs.declared.number.Ty.TheVariants.{Bool};
ghost use Rattle.nk_base.specs.declared.number.Ty as types;
ghost use Rattle.nml_known.specs.Known.{told};
ghost use Rattle.nml_known.specs.declared.known.Known.TheVariants as shown;
ghost use Rattle.nml_tree.specs.Exec.{storages};
ghost use Rattle.nml_tree.specs.Refused.{IsTyped};
ghost use Rattle.nml_tree.specs.Table.{Table, declared, entry, table};
ghost use Rattle.nml_tree.specs.Valid.{IsWordWidth};
ghost use Rattle.nml_tree.specs.Worth.{is_type};

use attr_exec::storage_number;
use image_file::Layout;
use nk_base::{Memory, Ty};
use nml_known::{Known, Names};
use nml_tree::{Checked, Item};
use std::alloc::Global;

/// By what the images of the description are measured, whose words have so many bits. It takes time linear in the description.
///
/// The one error is want of memory. The form is this project's own.
pub fn layout_of(alloc: Global, d: &Checked, width: u32) -> Result<Layout, Memory>
    requires { IsWordWidth (table d.now) width }
    ensures { IfOk result (λ l. measures_of l ≡ measures (table d.now) width) }
{
    let desc = &d.typed.desc;
    let names = Names::new(alloc, desc)?;
    let storages = storages_of(alloc, &names)?;
    let pc = storage_number(desc.items.as_slice(), b"PC".as_slice());
    let pc_bits = type_at(&storages, pc).width();
    Ok(Layout {
        width,
        pc_bits,
        pc: pc as u32,
        storages,
    })
}

/// How many cells each storage has, and their type.
fn storages_of(alloc: Global, names: &Names<'_>) -> Result<Vec<(u32, Ty)>, Memory>
    requires { IsTyped names.now }
    ensures { IfOk result (λ v. v.items ≡ storages (table names.now)) }
{
    let mut found = Vec::new(alloc);
    let items = names.items();
    for i in 0..items.len() {
        let one = storage_of(names, &items[i]);
        add(&mut found, one)?;
    }
    Ok(found)
}

/// Adds the storage, where there is one.
fn add(found: &mut Vec<(u32, Ty)>, one: Option<(u32, Ty)>) -> Result<(), Memory>
    ensures { OnOk result (found.new.items ≡ found.old.items ++ listed one) }
{
    match one {
        None => {}
        Some(storage) => found.push(storage)?,
    }
    Ok(())
}

/// How many cells the storage has that the item declares, and their type; `None` of another item.
fn storage_of(names: &Names<'_>, item: &Item) -> Option<(u32, Ty)>
    ensures { (t : Table) → declared (table names.now) (entry t item.now).0 ≡ Some (entry t item.now).1 → IsRight (entry t item.now).1 → listed result ≡ storages (entry t item.now ∷ []) }
{
    match item {
        Item::Storage(storage) => cells_of(names.declared(&storage.name.text)),
        Item::Let(_, _, _, _, _) => None,
        Item::Type(_, _, _, _) => None,
        Item::Port(_) => None,
        Item::OrRule(_) => None,
        Item::OpRule(_) => None,
        Item::ModeRule(_) => None,
    }
}

/// How many cells a storage has, and their type; `None` of what is none.
fn cells_of(known: Option<Known>) -> Option<(u32, Ty)>
    ensures { (size : ℕ) (ty : types.Ty) → known ≡ Some (shown.Storage size (told ty)) → size ≤ 65536 → is_type ty ≡ true → result ≡ Some (size, ty) }
{
    match known {
        Some(Known::Storage(size, ty)) => Some((few(size), ty)),
        _ => None,
    }
}

/// The number, where it is at most 65,536; 0 of another.
fn few(size: u128) -> u32
    ensures { size ≤ 65536 → result ≡ size }
{
    if size <= 65536 { size as u32 } else { 0 }
}

/// The type of the storage of this number; `Bool` where there is none.
fn type_at(storages: &[(u32, Ty)], number: usize) -> Ty
    ensures { result ≡ unwrap_or (slice_get (map (λ s. s.1) storages.now) number) Bool }
{
    match storages.get(number) {
        None => Ty::Bool,
        Some(storage) => storage.1,
    }
}
