//! The names of a description, each storage and each transitory with its number.

ghost use Rattle.std.specs.Prelude.{◌≡◌, ◌+◌, ◌++◌, ◌∷◌, [], IfOk};
ghost use Rattle.isg_written.specs.Counted.{AreCounts};
ghost use Rattle.isg_written.specs.Numbers.{all_numbers, number_named, number_of};
ghost use Rattle.nml_tree.specs.Table.{Table, declared, entries, entry, table};

use nk_base::{Memory, Text};
use nml_known::Names;
use nml_tree::{Item, PortWord};
use std::alloc::Global;
use std::marker::Model;

/// The names of a description, each storage and each transitory with its number. Each look-up takes the same time, however many names
/// there are.
///
/// The form is this project's own.
#[derive(Drop)]
pub struct Numbered<'a> {
    names: &'a Names<'a>,
    numbers: Vec<u32>,
}

impl<'a> Model for Numbered<'a> {
    ghost use Rattle.std.specs.Prelude.{◌≡◌};
    ghost use Rattle.isg_written.specs.Numbers.{all_numbers};
    ghost use Rattle.nml_tree.specs.Table.{table};
    ghost use Rattle.nml_tree.specs.declared.tree.Desc.{Desc};
    ghost use Rattle.nml_tree.specs.contracts.tree.Desc as d;
    ghost use Rattle.std.specs.Coded.{codes};

    ghost Value = { Desc };

    ghost coded = { Prim.hlevel (codes, d.the_row.coded) };

    ghost view = { λ n. n.names.now };

    ghost invariant = { λ n. n.numbers.items ≡ all_numbers (table n.names.now) };
}

impl<'a> Numbered<'a> {
    /// The names of a description with their numbers. The one error is want of memory, also that for 2^32 storages or transitories.
    pub fn new(alloc: Global, names: &'a Names<'a>) -> Result<Numbered<'a>, Memory>
        ensures { IfOk result (λ n. n ≡ names.now) }
    {
        let numbers = numbers_of(alloc, names.items())?;
        Ok(Numbered { names, numbers })
    }

    /// The names. It takes no memory.
    pub fn names(&self) -> &Names<'a>
        ensures { result.now ≡ self.now }
    {
        self.names
    }

    /// The number of the storage, or of the transitory, that the name is declared as; 0 where it is neither. It takes no memory.
    pub fn number(&self, name: &Text) -> u32
        ensures { result ≡ number_named (declared (table self.now) name.now) }
    {
        match self.names.number(name) {
            None => 0,
            Some(n) => match self.numbers.get(n) {
                None => 0,
                Some(number) => *number,
            },
        }
    }
}

/// How many storages and how many transitories there are.
#[derive(Clone, Copy)]
pub struct Counts {
    pub storages: u32,
    pub trns: u32,
}

/// The number of each storage and of each transitory, 0 of each other item.
fn numbers_of(alloc: Global, items: &[Item]) -> Result<Vec<u32>, Memory>
    ensures { IfOk result (λ v. v.items ≡ all_numbers (entries [] items.now)) }
{
    let mut numbers = Vec::new(alloc);
    let mut counts = Counts {
        storages: 0,
        trns: 0,
    };
    for i in 0..items.len() {
        let item = &items[i];
        numbers.push(number_of(item, counts))?;
        counts = with_item(item, counts)?;
    }
    Ok(numbers)
}

/// The number of what the item declares behind so many storages and transitories.
fn number_of(item: &Item, counts: Counts) -> u32
    ensures { (t : Table) → AreCounts t counts → result ≡ number_of (entry t item.now).1 }
{
    match item {
        Item::Let(_, _, _, _, _) => 0,
        Item::Type(_, _, _, _) => 0,
        Item::Storage(_) => counts.storages,
        Item::Port(port) => match port.word {
            PortWord::Trn(_) => counts.trns,
            PortWord::Inp(_) => 0,
            PortWord::Out(_) => 0,
        },
        Item::OrRule(_) => 0,
        Item::OpRule(_) => 0,
        Item::ModeRule(_) => 0,
    }
}

/// How many there are with the item.
fn with_item(item: &Item, counts: Counts) -> Result<Counts, Memory>
    ensures { IfOk result (λ n. (t : Table) → AreCounts t counts → AreCounts (t ++ entry t item.now ∷ []) n) }
{
    match item {
        Item::Let(_, _, _, _, _) => Ok(counts),
        Item::Type(_, _, _, _) => Ok(counts),
        Item::Storage(_) => more_storages(counts),
        Item::Port(port) => match port.word {
            PortWord::Trn(_) => more_trns(counts),
            PortWord::Inp(_) => Ok(counts),
            PortWord::Out(_) => Ok(counts),
        },
        Item::OrRule(_) => Ok(counts),
        Item::OpRule(_) => Ok(counts),
        Item::ModeRule(_) => Ok(counts),
    }
}

/// One storage more.
fn more_storages(counts: Counts) -> Result<Counts, Memory>
    ensures { IfOk result (λ n. (n.storages ≡ counts.storages + 1) × (n.trns ≡ counts.trns)) }
{
    match counts.storages.checked_add(1) {
        None => Err(Memory),
        Some(storages) => Ok(Counts { storages, ..counts }),
    }
}

/// One transitory more.
fn more_trns(counts: Counts) -> Result<Counts, Memory>
    ensures { IfOk result (λ n. (n.storages ≡ counts.storages) × (n.trns ≡ counts.trns + 1)) }
{
    match counts.trns.checked_add(1) {
        None => Err(Memory),
        Some(trns) => Ok(Counts { trns, ..counts }),
    }
}
