//! What is counted of all rules.

ghost use Rattle.std.specs.Prelude.{◌≡◌, length, IfOk, OnOk};
ghost use Rattle.nml_names.specs.Below.{graph};
ghost use Rattle.graphs.specs.Graphs.{IsOrder};
ghost use Rattle.nml_tree.specs.Refused.{IsFreeBelow};
ghost use Rattle.nml_tree.specs.Table.{table};
ghost use Rattle.shape_count.specs.Tallies as spec;
ghost use Rattle.shape_count.specs.Tallies.{AreTallied, AreTallies};

use crate::pars::{and_tally, or_tally, tally_named};
use crate::root::root_name;
use crate::tally::Tally;
use nk_base::Memory;
use nml_known::Names;
use nml_tree::Item;
use std::alloc::Global;

/// Those of the rule that the item declares, from those of the rules that it names.
fn item_tally(names: &Names<'_>, tallies: &[Tally], item: &Item) -> Tally
    ensures { result ≡ spec.item_tally names.now tallies.now item.now }
{
    match item {
        Item::Let(_, _, _, _, _) => Tally::of(0, 0),
        Item::Type(_, _, _, _) => Tally::of(0, 0),
        Item::Storage(_) => Tally::of(0, 0),
        Item::Port(_) => Tally::of(0, 0),
        Item::OrRule(rule) => or_tally(names, tallies, &rule.first, rule.rest.as_slice()),
        Item::OpRule(rule) => and_tally(names, tallies, &rule.pars),
        Item::ModeRule(rule) => and_tally(names, tallies, &rule.pars),
    }
}

/// Sets those of the rule that the item of this number declares.
fn set_tally(names: &Names<'_>, tallies: &mut Vec<Tally>, number: usize)
    requires { length tallies.old.items ≡ length names.now.items }
    ensures { tallies.new.items ≡ spec.with_tally names.now tallies.old.items number }
{
    match names.items().get(number) {
        None => {}
        Some(item) => {
            let one = item_tally(names, tallies.as_slice(), item);
            tallies[number] = one;
        }
    }
}

/// Those of each rule, at the number of the item that declares it.
fn tallies(alloc: Global, names: &Names<'_>, order: &[usize]) -> Result<Vec<Tally>, Memory>
    requires order { IsOrder (graph names.now.items) order.now }
    requires free { IsFreeBelow 12 names.now }
    ensures { IfOk result (λ tallies. AreTallies names.now tallies.items) }
{
    let mut tallies = vec![in alloc; Tally::of(0, 0); names.items().len()]?;
    for p in 0..order.len() {
        set_tally(names, &mut tallies, order[p]);
    }
    Ok(tallies)
}

/// How many shapes the description has, and how many nodes a derivation of `instruction` has at most.
///
/// The order has each rule behind those that it names. The one error is want of memory.
pub fn tally_shapes(alloc: Global, names: &Names<'_>, order: &[usize]) -> Result<Tally, Memory>
    requires order { IsOrder (graph names.now.items) order.now }
    requires free { IsFreeBelow 12 names.now }
    ensures { IfOk result (λ s. AreTallied (table names.now) s.count s.nodes) }
{
    let tallies = tallies(alloc, names, order)?;
    let root = root_name(alloc)?;
    Ok(tally_named(names, tallies.as_slice(), &root))
}
