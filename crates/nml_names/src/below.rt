//! The items that each rule names, by their numbers.
ghost use Rattle.std.specs.Prelude.{◌≡◌, ◌++◌, map, IfOk, OnOk};
ghost use Rattle.nml_tree.specs.Table.{pars_of};
ghost use Rattle.nml_names.specs.Below as spec;
ghost use Rattle.nml_names.specs.Below.{looked, first_number, with_alternatives, with_parts};

use crate::names::Declaration;
use indexmap::IndexMap;
use nk_base::{Memory, Text};
use nml_tree::{Item, Name, Par, Pars, TypeExpr};
use sqlite_items::Items;
use std::alloc::Global;

/// Appends the number of the item that declares the name, where there is one.
fn push_number(
    names: &IndexMap<Text, Declaration>,
    name: &Text,
    numbers: &mut Vec<usize>,
) -> Result<(), Memory>
    ensures { OnOk result (numbers.new.items ≡ numbers.old.items ++ first_number (looked names.now.entries name.now)) }
{
    match names.get(name) {
        None => Ok(()),
        Some(found) => {
            numbers.push(found.first)?;
            Ok(())
        }
    }
}

/// Appends the number of the part's rule, where the type is that of a part.
fn push_part(
    names: &IndexMap<Text, Declaration>,
    ty: &TypeExpr,
    numbers: &mut Vec<usize>,
) -> Result<(), Memory>
    ensures { OnOk result (numbers.new.items ≡ numbers.old.items ++ spec.part (looked names.now.entries) ty.now) }
{
    match ty {
        TypeExpr::Bool(_) => Ok(()),
        TypeExpr::Card(_, _, _, _) => Ok(()),
        TypeExpr::Int(_, _, _, _) => Ok(()),
        TypeExpr::Fix(_, _, _, _, _, _) => Ok(()),
        TypeExpr::Float(_, _, _, _, _, _) => Ok(()),
        TypeExpr::Name(name) => push_rule(names, &name.text, numbers),
    }
}

/// Appends the number of the item that declares the name, where that is a rule.
fn push_rule(
    names: &IndexMap<Text, Declaration>,
    name: &Text,
    numbers: &mut Vec<usize>,
) -> Result<(), Memory>
    ensures { OnOk result (numbers.new.items ≡ numbers.old.items ++ spec.rule_number (looked names.now.entries name.now)) }
{
    match names.get(name) {
        None => Ok(()),
        Some(found) => {
            if found.rule {
                numbers.push(found.first)?;
            }
            Ok(())
        }
    }
}

/// Appends the numbers of these alternatives.
fn push_alternatives(
    names: &IndexMap<Text, Declaration>,
    rest: &[(u32, Name)],
    numbers: &mut Vec<usize>,
) -> Result<(), Memory>
    ensures { OnOk result (numbers.new.items ≡ with_alternatives (looked names.now.entries) numbers.old.items (map (λ (bar, n). n.text) rest.now)) }
{
    for (_, n) in rest {
        push_number(names, &n.text, numbers)?;
    }
    Ok(())
}

/// Appends the numbers of the rules of these parts.
fn push_parts(
    names: &IndexMap<Text, Declaration>,
    rest: &[(u32, Par)],
    numbers: &mut Vec<usize>,
) -> Result<(), Memory>
    ensures { OnOk result (numbers.new.items ≡ with_parts (looked names.now.entries) numbers.old.items (map (λ (comma, p). p) rest.now)) }
{
    for (_, p) in rest {
        push_part(names, &p.ty, numbers)?;
    }
    Ok(())
}

/// Appends the numbers of the rules of the parts among the parameters.
fn push_pars(
    names: &IndexMap<Text, Declaration>,
    pars: &Option<Pars>,
    numbers: &mut Vec<usize>,
) -> Result<(), Memory>
    ensures { OnOk result (numbers.new.items ≡ with_parts (looked names.now.entries) numbers.old.items (pars_of pars.now)) }
{
    match pars {
        None => Ok(()),
        Some(ps) => {
            push_part(names, &ps.first.ty, numbers)?;
            push_parts(names, ps.rest.as_slice(), numbers)
        }
    }
}

/// The numbers of the items that the item names as its alternatives or parts.
fn below(
    alloc: Global,
    names: &IndexMap<Text, Declaration>,
    item: &Item,
) -> Result<Items<usize>, Memory>
    ensures { IfOk result (λ numbers. numbers ≡ spec.below (looked names.now.entries) item.now) }
{
    let mut numbers = Vec::new(alloc);
    match item {
        Item::OrRule(rule) => {
            push_number(names, &rule.first.text, &mut numbers)?;
            push_alternatives(names, rule.rest.as_slice(), &mut numbers)?;
        }
        Item::OpRule(rule) => push_pars(names, &rule.pars, &mut numbers)?,
        Item::ModeRule(rule) => push_pars(names, &rule.pars, &mut numbers)?,
        Item::Let(_, _, _, _, _) => (),
        Item::Type(_, _, _, _) => (),
        Item::Storage(_) => (),
        Item::Port(_) => (),
    }
    Ok(Items::from_vec(numbers))
}

/// The items, each with the numbers of those that it names as its alternatives or parts.
pub fn graph(
    alloc: Global,
    names: &IndexMap<Text, Declaration>,
    items: &[Item],
) -> Result<Vec<Items<usize>>, Memory>
    ensures { IfOk result (λ rows. rows.items ≡ map (spec.below (looked names.now.entries)) items.now) }
{
    let mut rows = Vec::new(alloc);
    for item in items {
        rows.push(below(alloc, names, item)?)?;
    }
    Ok(rows)
}
