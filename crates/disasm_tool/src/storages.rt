//! The storages of a description, as the text of an image speaks of them.

ghost use Rattle.std.specs.Prelude.{◌<◌, ◌≡◌, ◌++◌, ◌∷◌, [], IfOk, OnOk, length, map, slice_get, Some};
ghost use Rattle.asm_text.specs.Canonical.{storage_name};
ghost use Rattle.disasm_tool.specs.Names.{storage_names};
ghost use Rattle.nk_base.specs.Number.{IsTy};
ghost use Rattle.nml_tree.specs.Exec.{storage_type, storages};
ghost use Rattle.nml_tree.specs.Table.{Table, entries, entry, table};
ghost use Rattle.nml_tree.specs.Valid.{IsWordWidth};

use image_layout::layout_of;
use nk_base::{Memory, Text, Ty};
use nml_tree::{Checked, Item};
use std::alloc::Global;
use std::marker::Model;

/// The storages of a description: their names and the types of their cells, by their numbers.
///
/// Contracts see them as the description.
#[derive(Drop)]
pub struct Storages<'d> {
    checked: &'d Checked,
    names: Vec<&'d Text>,
    /// How many cells each has, and their type.
    rows: Vec<(u32, Ty)>,
}

impl<'d> Model for Storages<'d> {
    ghost use Rattle.std.specs.Coded.{codes};
    ghost use Rattle.std.specs.Prelude.{◌≡◌, map};
    ghost use Rattle.disasm_tool.specs.Names.{storage_names};
    ghost use Rattle.nml_tree.specs.Exec.{storages};
    ghost use Rattle.nml_tree.specs.Table.{table};
    ghost use Rattle.nml_tree.specs.contracts.tree.Desc as d;
    ghost use Rattle.nml_tree.specs.declared.tree.Desc.{Desc};

    ghost Value = { Desc };

    ghost coded = { Prim.hlevel (codes, d.the_row.coded) };

    ghost view = { λ s. s.checked.now };

    ghost invariant = { λ s. (map (λ n. n.now) s.names.items ≡ storage_names (table s.checked.now)) × (s.rows.items ≡ storages (table s.checked.now)) };
}

impl<'d> Storages<'d> {
    /// The storages of the description, whose words have so many bits. The one error is want of memory.
    pub fn new(alloc: Global, checked: &'d Checked, width: u32) -> Result<Storages<'d>, Memory>
        requires { IsWordWidth (table checked.now) width }
        ensures { IfOk result (λ s. s ≡ checked.now) }
    {
        let layout = layout_of(alloc, checked, width)?;
        let names = names_of(alloc, checked.typed.desc.items.as_slice())?;
        Ok(Storages {
            checked,
            names,
            rows: layout.storages,
        })
    }

    /// The name of the storage of this number.
    pub fn name(&self, n: usize) -> &Text
        requires { n < length (storages (table self.now)) }
        ensures { result.now ≡ storage_name (table self.now) n }
    {
        name_at(&self.names, n)
    }

    /// The type of the cells of the storage of this number.
    pub fn ty(&self, n: usize) -> Ty
        requires { n < length (storages (table self.now)) }
        ensures exact { result ≡ storage_type (table self.now) n }
        ensures right { IsTy result }
    {
        // In a checked description each type is right.
        let checked = self.checked;
        let _ = &checked.typed;
        row_at(&self.rows, n).1
    }
}

/// The name of this number.
fn name_at<'d>(names: &[&'d Text], n: usize) -> &'d Text
    requires { n < length names.now }
    ensures { slice_get (map (λ m. m.now) names.now) n ≡ Some result.now }
{
    names[n]
}

/// How many cells the storage of this number has, and their type.
fn row_at(rows: &[(u32, Ty)], n: usize) -> (u32, Ty)
    requires { n < length rows.now }
    ensures { slice_get rows.now n ≡ Some result }
{
    rows[n]
}

/// The names of the storages that the items declare, in their order.
fn names_of(alloc: Global, items: &[Item]) -> Result<Vec<&Text>, Memory>
    ensures { IfOk result (λ v. map (λ n. n.now) v.items ≡ storage_names (entries [] items.now)) }
{
    let mut names = Vec::new(alloc);
    for item in items {
        add_name(item, &mut names)?;
    }
    Ok(names)
}

/// Appends the name of the storage that the item declares, where it declares one.
fn add_name<'d>(item: &'d Item, names: &mut Vec<&'d Text>) -> Result<(), Memory>
    ensures { OnOk result ((t : Table) → map (λ n. n.now) names.new.items ≡ map (λ n. n.now) names.old.items ++ storage_names (entry t item.now ∷ [])) }
{
    match item {
        Item::Storage(storage) => names.push(&storage.name.text)?,
        Item::Let(_, _, _, _, _) => {}
        Item::Type(_, _, _, _) => {}
        Item::Port(_) => {}
        Item::OrRule(_) => {}
        Item::OpRule(_) => {}
        Item::ModeRule(_) => {}
    }
    Ok(())
}
