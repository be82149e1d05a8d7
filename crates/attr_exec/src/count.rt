//! Storages and transitories by number.

ghost use Rattle.std.specs.Prelude.{◌≡◌, [], filter, length};
ghost use Rattle.nml_tree.specs.Table.{Table, entries, entry, is_storage, is_trn};

use nml_tree::{Item, PortWord};

/// How many storages the items declare.
pub fn count_storages(items: &[Item]) -> usize
    ensures { result ≡ length (filter is_storage (entries [] items.now)) }
{
    let mut count = 0usize;
    for i in 0..items.len() {
        if declares_storage(&items[i]) {
            count += 1;
        }
    }
    count
}

/// How many transitories the items declare.
pub fn count_trns(items: &[Item]) -> usize
    ensures { result ≡ length (filter is_trn (entries [] items.now)) }
{
    let mut count = 0usize;
    for i in 0..items.len() {
        if declares_trn(&items[i]) {
            count += 1;
        }
    }
    count
}

fn declares_storage(item: &Item) -> bool
    ensures { (t : Table) → result ≡ is_storage (entry t item.now) }
{
    match item {
        Item::Storage(_) => true,
        Item::Let(_, _, _, _, _) => false,
        Item::Type(_, _, _, _) => false,
        Item::Port(port) => match port.word {
            PortWord::Trn(_) => false,
            PortWord::Inp(_) => false,
            PortWord::Out(_) => false,
        },
        Item::OrRule(_) => false,
        Item::OpRule(_) => false,
        Item::ModeRule(_) => false,
    }
}

fn declares_trn(item: &Item) -> bool
    ensures { (t : Table) → result ≡ is_trn (entry t item.now) }
{
    match item {
        Item::Port(port) => match port.word {
            PortWord::Trn(_) => true,
            PortWord::Inp(_) => false,
            PortWord::Out(_) => false,
        },
        Item::Let(_, _, _, _, _) => false,
        Item::Type(_, _, _, _) => false,
        Item::Storage(_) => false,
        Item::OrRule(_) => false,
        Item::OpRule(_) => false,
        Item::ModeRule(_) => false,
    }
}
