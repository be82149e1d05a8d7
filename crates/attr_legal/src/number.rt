//! The numbers of storages and transitories.

ghost use Rattle.std.specs.Prelude.{◌≡◌, [], filter, length};
ghost use Rattle.attr_legal.specs.Among as spec;
ghost use Rattle.nml_tree.specs.Table.{entries, is_storage, is_trn};

use nml_tree::{Item, PortWord};

/// How many storages there are, which is the number of the next one.
pub fn storages(items: &[Item]) -> usize
    ensures { result ≡ length (filter is_storage (entries [] items.now)) }
{
    storages_among(items)
}

/// How many transitories there are, which is the number of the next one.
pub fn transitories(items: &[Item]) -> usize
    ensures { result ≡ length (filter is_trn (entries [] items.now)) }
{
    transitories_among(items)
}

fn storages_among(items: &[Item]) -> usize
    ensures { result ≡ spec.storages_among items.now }
{
    let mut count = 0;
    for item in items {
        if is_storage(item) {
            count += 1;
        }
    }
    count
}

fn transitories_among(items: &[Item]) -> usize
    ensures { result ≡ spec.transitories_among items.now }
{
    let mut count = 0;
    for item in items {
        if is_transitory(item) {
            count += 1;
        }
    }
    count
}

fn is_storage(item: &Item) -> bool
    ensures { result ≡ spec.is_storage_item item.now }
{
    match item {
        Item::Let(_, _, _, _, _) => false,
        Item::Type(_, _, _, _) => false,
        Item::Storage(_) => true,
        Item::Port(_) => false,
        Item::OrRule(_) => false,
        Item::OpRule(_) => false,
        Item::ModeRule(_) => false,
    }
}

fn is_transitory(item: &Item) -> bool
    ensures { result ≡ spec.is_trn_item item.now }
{
    match item {
        Item::Let(_, _, _, _, _) => false,
        Item::Type(_, _, _, _) => false,
        Item::Storage(_) => false,
        Item::Port(port) => match port.word {
            PortWord::Trn(_) => true,
            PortWord::Inp(_) => false,
            PortWord::Out(_) => false,
        },
        Item::OrRule(_) => false,
        Item::OpRule(_) => false,
        Item::ModeRule(_) => false,
    }
}
