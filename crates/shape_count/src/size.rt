//! How long an action written out is at most.

ghost use Rattle.std.specs.Prelude.{◌≡◌, Some, IfOk, IfSome, OnOk, length, slice_get};
ghost use Rattle.nml_tree.specs.Refused.{IsFreeBelow};
ghost use Rattle.nml_tree.specs.Shapes.{IsGreatest, size_of_action};
ghost use Rattle.nml_tree.specs.Table.{table};
ghost use Rattle.nml_tree.specs.Valid.{IsRoot};
ghost use Rattle.shape_count.specs.Weights.{AreRight, AreSummaries, IsBest, IsItemSummary};

use crate::best::{and_best, or_best};
use crate::key::{Key, look, number_of};
use crate::root::root_name;
use crate::summary::{Summary, summaries};
use indexmap::IndexMap;
use nk_base::Memory;
use nml_known::Names;
use nml_tree::Item;
use std::alloc::Global;

/// What the key comes to at most, this being its item; `None` where something below it isn't known, which is then put onto the open
/// ones.
fn rule_best(
    names: &Names<'_>,
    known: &IndexMap<Key, u32>,
    open: &mut Vec<Key>,
    key: Key,
    item: &Item,
    s: &Summary,
) -> Result<Option<u32>, Memory>
    requires free { IsFreeBelow 12 names.now }
    requires right { AreRight names.now known.now.entries }
    requires at { slice_get names.now.items key.number ≡ Some item.now }
    requires summary { IsItemSummary names.now item.now s.now }
    ensures { IfOk result (λ o. IfSome o (λ b. IsBest names.now key b)) }
{
    match item {
        Item::Let(_, _, _, _, _) => Ok(Some(0)),
        Item::Type(_, _, _, _) => Ok(Some(0)),
        Item::Storage(_) => Ok(Some(0)),
        Item::Port(_) => Ok(Some(0)),
        Item::OrRule(rule) => {
            or_best(names, known, open, key, &rule.first, rule.rest.as_slice())
        }
        Item::OpRule(rule) => and_best(names, known, open, s, key, &rule.pars),
        Item::ModeRule(rule) => and_best(names, known, open, s, key, &rule.pars),
    }
}

/// The same; where there is no such item, there is nothing to come to.
fn item_best(
    names: &Names<'_>,
    summaries: &[Summary],
    known: &IndexMap<Key, u32>,
    open: &mut Vec<Key>,
    key: Key,
) -> Result<Option<u32>, Memory>
    requires free { IsFreeBelow 12 names.now }
    requires summaries { AreSummaries names.now (length names.now.items) summaries.now }
    requires right { AreRight names.now known.now.entries }
    ensures { IfOk result (λ o. IfSome o (λ b. IsBest names.now key b)) }
{
    match names.items().get(key.number) {
        None => Ok(Some(0)),
        Some(item) => match summaries.get(key.number) {
            None => Ok(Some(0)),
            Some(s) => rule_best(names, known, open, key, item, s),
        },
    }
}

/// Makes the key known, or puts it and what isn't known below it onto the open ones.
fn settle(
    names: &Names<'_>,
    summaries: &[Summary],
    known: &mut IndexMap<Key, u32>,
    open: &mut Vec<Key>,
    key: Key,
) -> Result<(), Memory>
    requires free { IsFreeBelow 12 names.now }
    requires summaries { AreSummaries names.now (length names.now.items) summaries.now }
    requires right { AreRight names.now known.old.entries }
    ensures { OnOk result (AreRight names.now known.new.entries) }
{
    if look(known, key).is_some() {
        return Ok(());
    }
    open.push(key)?;
    match item_best(names, summaries, known, open, key)? {
        None => {}
        Some(best) => {
            open.pop();
            known.insert(key, best)?;
        }
    }
    Ok(())
}

/// How long the action of an instruction is at most, written out.
///
/// A rule's value stands as often as it is named, and its action where it is said, both of one derivation. So for each rule and each
/// pair of how often its action and its value count the greatest sum is found once, from the rules that it names; a rule whose value
/// alone counts is asked for the greatest value, however often it counts. A rule has several pairs only where it is a part whose
/// action and whose value both stand in an action, under several that name it unequally often. A stack of pairs stands in place of
/// recursion by rules. The one error is want of memory.
pub fn greatest_size(alloc: Global, names: &Names<'_>) -> Result<u32, Memory>
    requires free { IsFreeBelow 12 names.now }
    ensures { IfOk result (λ n. IsGreatest (IsRoot (table names.now)) (size_of_action (table names.now)) n) }
{
    let summaries = summaries(alloc, names)?;
    let root = root_name(alloc)?;
    let whole = Key {
        number: number_of(names, &root),
        action: 1,
        value: 0,
    };
    let mut known = IndexMap::new(alloc);
    let mut open = Vec::new(alloc);
    // Each round makes a pair known, or puts those below it onto the stack: no description has so many that the rounds run out.
    for _ in 0..usize::MAX {
        match look(&known, whole) {
            None => {}
            Some(best) => return Ok(best),
        }
        let key = match open.pop() {
            None => whole,
            Some(next) => next,
        };
        settle(names, summaries.as_slice(), &mut known, &mut open, key)?;
    }
    Err(Memory)
}
