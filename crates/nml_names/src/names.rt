//! The names that a description declares, and where.
ghost use Rattle.std.specs.Prelude.{◌≡◌, pos, IfOk};
ghost use Rattle.std.specs.Map.{lookup};
ghost use Rattle.nk_base.specs.Text.{text_eq};
ghost use Rattle.nml_tree.specs.Table as table;
ghost use Rattle.nml_tree.specs.Uses.{declares};
ghost use Rattle.nml_names.specs.Naming as spec;
ghost use Rattle.nml_names.specs.Naming.{AreDeclared};

use crate::item::is_rule;
use indexmap::IndexMap;
use nk_base::{Memory, Text};
use nml_tree::{Item, Name, Size};
use std::alloc::Global;

/// Where a name is declared.
#[derive(Clone, Copy)]
pub struct Declaration {
    /// The number of the first item that declares it, from 0.
    pub first: usize,
    /// The least place at which an item declares it.
    pub place: u32,
    /// Whether the first is neither a `let` nor a `type`, and so may stand behind a use.
    pub late: bool,
    /// Whether the first is a rule.
    pub rule: bool,
    /// The number of the first, where that is a `let`.
    pub constant: Option<i128>,
}

/// The name that the item declares.
pub fn declared_name(item: &Item) -> &Name
    ensures { result.now ≡ declares item.now }
{
    match item {
        Item::Let(_, name, _, _, _) => name,
        Item::Type(_, name, _, _) => name,
        Item::Storage(storage) => &storage.name,
        Item::Port(port) => &port.name,
        Item::OrRule(rule) => &rule.name,
        Item::OpRule(rule) => &rule.name,
        Item::ModeRule(rule) => &rule.name,
    }
}

/// Whether the item may stand behind a use of its name.
fn is_late(item: &Item) -> bool
    ensures { result ≡ spec.is_late item.now }
{
    match item {
        Item::Let(_, _, _, _, _) => false,
        Item::Type(_, _, _, _) => false,
        Item::Storage(_) => true,
        Item::Port(_) => true,
        Item::OrRule(_) => true,
        Item::OpRule(_) => true,
        Item::ModeRule(_) => true,
    }
}

/// The number with its sign.
fn signed(minus: Option<u32>, value: u64) -> i128
    ensures { result ≡ table.signed minus (pos value) }
{
    match minus {
        None => i128::from(value),
        Some(_) => -i128::from(value),
    }
}

/// The number of the item, where that is a `let`.
fn constant(item: &Item) -> Option<i128>
    ensures { result ≡ spec.constant_of item.now }
{
    match item {
        Item::Let(_, _, _, minus, number) => Some(signed(*minus, number.value)),
        Item::Type(_, _, _, _) => None,
        Item::Storage(_) => None,
        Item::Port(_) => None,
        Item::OrRule(_) => None,
        Item::OpRule(_) => None,
        Item::ModeRule(_) => None,
    }
}

/// The number that the size writes, or that its name has.
pub fn size_number(names: &IndexMap<Text, Declaration>, size: &Size) -> Option<i128>
    ensures { result ≡ spec.number_in names.now.entries size.now }
{
    match size {
        Size::Number(number) => Some(i128::from(number.value)),
        Size::Name(name) => names.get(&name.text)?.constant,
    }
}

/// The lesser of the name's place and that of its declaration among these.
fn least_place(names: &IndexMap<Text, Declaration>, name: &Name) -> u32
    ensures { result ≡ spec.least_place name.now.at (lookup (text_eq name.now.text) names.now.entries) }
{
    match names.get(&name.text) {
        None => name.at,
        Some(found) => if name.at < found.place {
            name.at
        } else {
            found.place
        },
    }
}

/// The declared names.
pub fn declarations(alloc: Global, items: &[Item]) -> Result<IndexMap<Text, Declaration>, Memory>
    ensures { IfOk result (λ m. AreDeclared m.entries items.now) }
{
    let mut names = IndexMap::new(alloc);
    for i in (0..items.len()).rev() {
        let name = declared_name(&items[i]);
        let declaration = Declaration {
            first: i,
            place: least_place(&names, name),
            late: is_late(&items[i]),
            rule: is_rule(&items[i]),
            constant: constant(&items[i]),
        };
        names.insert(name.text.clone()?, declaration)?;
    }
    Ok(names)
}
