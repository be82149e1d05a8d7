//! What each rule of a description is worth.

ghost use Rattle.std.specs.Prelude.{◌≡◌, ◌∷◌, IfOk, Contains, Option, map, option_map, slice_get};
ghost use Rattle.nml_names.specs.Below.{graph};
ghost use Rattle.graphs.specs.Graphs.{IsOrder};
ghost use Rattle.nml_tree.specs.declared.tree.Item.TheVariants as item;
ghost use Rattle.nml_tree.specs.Refused.{IsFreeBelow};
ghost use Rattle.nml_tree.specs.Table as tables;
ghost use Rattle.nml_tree.specs.Worth as spec;
ghost use Rattle.nml_worth.specs.Around.{AreWorths, BelowKnown, of_item};
ghost use Rattle.nml_worth.specs.Rules as rules;
ghost use Rattle.nml_worth.specs.Rules.{AltKnown, alternative, best, of_alternatives};
ghost use Rattle.nml_worth.specs.Shown.{shown};

use crate::scope::Scope;
use crate::seen::expr;
use crate::told::names_rule;
use crate::worth::{Worth, any_place, either, nothing, of_mode, unknown};
use nk_base::{Memory, Text};
use nml_known::Names;
use nml_tree::{Item, ModeRule, Name, OrRule, RuleWord};
use std::alloc::Global;

/// What the alternative is worth, where it is a rule.
fn of_alternative(names: &Names<'_>, worths: &[Worth], name: &Text) -> Option<Worth>
    requires { AltKnown names.now worths.now name.now }
    ensures { result ≡ option_map shown (alternative names.now name.now) }
{
    if !names_rule(names.declared(name)) {
        return None;
    }
    match names.number(name) {
        None => item_at(worths, 0),
        Some(n) => item_at(worths, n),
    }
}

fn item_at(worths: &[Worth], n: usize) -> Option<Worth>
    ensures { result ≡ slice_get worths.now n }
{
    match worths.get(n) {
        None => None,
        Some(w) => Some(*w),
    }
}

/// Either of two, each of which there may be.
fn greater(a: Option<Worth>, b: Option<Worth>) -> Option<Worth>
    ensures { (x y : Option spec.Worth) → a ≡ option_map shown x → b ≡ option_map shown y → result ≡ option_map shown (rules.greater x y) }
{
    match a {
        None => b,
        Some(x) => match b {
            None => Some(x),
            Some(y) => Some(either(x, y)),
        },
    }
}

/// Any of further alternatives.
fn further(names: &Names<'_>, worths: &[Worth], rest: &[(u32, Name)]) -> Option<Worth>
    requires { (name : tables.Text) → Contains (map (λ (bar, n). n.text) rest.now) name → AltKnown names.now worths.now name }
    ensures { result ≡ option_map shown (best names.now (map (λ (bar, n). n.text) rest.now)) }
{
    let mut found = None;
    for i in (0..rest.len()).rev() {
        found = greater(of_alternative(names, worths, &rest[i].1.text), found);
    }
    found
}

/// What a rule of alternatives is worth.
fn of_or_rule(names: &Names<'_>, worths: &[Worth], rule: &OrRule) -> Worth
    requires { BelowKnown names.now worths.now (item.OrRule rule.now) }
    ensures { result ≡ shown (of_item names.now (item.OrRule rule.now)) }
{
    match rule.word {
        RuleWord::Op(_) => nothing(),
        RuleWord::Mode(_) => of_modes(names, worths, rule),
    }
}

/// What modes are worth together.
fn of_modes(names: &Names<'_>, worths: &[Worth], rule: &OrRule) -> Worth
    requires { BelowKnown names.now worths.now (item.OrRule rule.now) }
    ensures { result ≡ shown (of_alternatives names.now (rule.now.first.text ∷ map (λ (bar, n). n.text) rule.now.rest)) }
{
    let found = further(names, worths, rule.rest.as_slice());
    let found = greater(of_alternative(names, worths, &rule.first.text), found);
    match found {
        None => of_mode(any_place()),
        Some(w) => of_mode(w),
    }
}

/// What a mode is worth.
fn of_mode_rule(
    alloc: Global,
    names: &Names<'_>,
    worths: &[Worth],
    rule: &ModeRule,
) -> Result<Worth, Memory>
    requires { BelowKnown names.now worths.now (item.ModeRule rule.now) }
    ensures { IfOk result (λ w. w ≡ shown (of_item names.now (item.ModeRule rule.now))) }
{
    let s = Scope::new(alloc, names, &rule.pars, worths)?;
    Ok(of_mode(expr(&s, &rule.value, None, None).worth))
}

/// What the item is worth, where it is a rule.
fn worth_of_item(
    alloc: Global,
    names: &Names<'_>,
    worths: &[Worth],
    item: &Item,
) -> Result<Worth, Memory>
    requires { BelowKnown names.now worths.now item.now }
    ensures { IfOk result (λ w. w ≡ shown (of_item names.now item.now)) }
{
    match item {
        Item::OrRule(rule) => Ok(of_or_rule(names, worths, rule)),
        Item::OpRule(_) => Ok(nothing()),
        Item::ModeRule(rule) => of_mode_rule(alloc, names, worths, rule),
        Item::Let(_, _, _, _, _) => Ok(unknown()),
        Item::Type(_, _, _, _) => Ok(unknown()),
        Item::Storage(_) => Ok(unknown()),
        Item::Port(_) => Ok(unknown()),
    }
}

/// What each rule is worth, by the number of its item, in a description in which no rule reaches itself; the order has each item behind
/// those that it names. What a rule is worth is this project's own rule. The one error is want of memory.
pub fn rule_worths(alloc: Global, names: &Names<'_>, order: &[usize]) -> Result<Vec<Worth>, Memory>
    requires order { IsOrder (graph names.now.items) order.now }
    requires free { IsFreeBelow 6 names.now }
    ensures { IfOk result (λ v. AreWorths names.now v.items) }
{
    let items = names.items();
    let mut worths = vec![in alloc; unknown(); items.len()]?;
    for p in 0..order.len() {
        let number = order[p];
        if number < items.len() {
            worths[number] = worth_of_item(alloc, names, worths.as_slice(), &items[number])?;
        }
    }
    Ok(worths)
}
