//! The names of an item.
ghost use Rattle.std.specs.Prelude.{◌≡◌, ◌&&◌, ◌||◌, not, map, codes, IfOk};
ghost use Rattle.std.specs.Option.{option_copied};
ghost use Rattle.std.specs.Map.{lookup};
ghost use Rattle.nk_base.specs.Text.{text_eq};
ghost use Rattle.nml_tree.specs.NameFault as faults;
ghost use Rattle.nml_tree.specs.Uses as names;
ghost use Rattle.nml_names.specs.Note.{noted};
ghost use Rattle.nml_names.specs.Found as spec;
ghost use Rattle.nml_names.specs.Found.{met, is_found, names_of};

use crate::names::{Declaration, declared_name};
use crate::noting::note;
use crate::parameters::{parameters, shared, types};
use crate::scope::{Scope, name};
use crate::used::{expr, size, ty};
use crate::used_stmt::attributes;
use indexmap::IndexMap;
use nk_base::{Memory, Text};
use nml_tree::{Item, Name, Pars, PortWord, StorageWord};
use std::alloc::Global;

/// Notes the least of these names that isn't known.
fn alternatives(s: &Scope<'_>, rest: &[(u32, Name)], found: Option<u32>) -> Option<u32>
    ensures { result ≡ met (is_found s.now) found (map (λ (bar, n). n) rest.now) }
{
    let mut found = found;
    for (_, n) in rest {
        found = name(s, n, found);
    }
    found
}

/// Notes the least name that the item uses and that isn't known.
#[tactic(auto, using(crate::proofs::Notes::met_append))]
fn uses(s: &Scope<'_>, item: &Item, found: Option<u32>) -> Option<u32>
    ensures { result ≡ met (is_found s.now) found (names.uses item.now) }
{
    match item {
        Item::Let(_, _, _, _, _) => found,
        Item::Type(_, _, _, e) => ty(s, e, found),
        Item::Storage(storage) => ty(s, &storage.ty, size(s, &storage.size, found)),
        Item::Port(port) => ty(s, &port.ty, found),
        Item::OrRule(rule) => alternatives(s, rule.rest.as_slice(), name(s, &rule.first, found)),
        Item::OpRule(rule) => attributes(s, &rule.attrs, types(s, &rule.pars, found)),
        Item::ModeRule(rule) => {
            let found = expr(s, &rule.value, types(s, &rule.pars, found));
            attributes(s, &rule.attrs, found)
        }
    }
}

/// The parameters of the item, where it is a rule that has some.
fn pars_of(item: &Item) -> Option<&Pars>
    ensures { names_of (option_copied result) ≡ names.parameters item.now }
{
    match item {
        Item::Let(_, _, _, _, _) => None,
        Item::Type(_, _, _, _) => None,
        Item::Storage(_) => None,
        Item::Port(_) => None,
        Item::OrRule(_) => None,
        Item::OpRule(rule) => rule.pars.as_ref(),
        Item::ModeRule(rule) => rule.pars.as_ref(),
    }
}

/// Whether the item is the input.
fn is_inp(item: &Item) -> bool
    ensures { result ≡ spec.is_inp item.now }
{
    match item {
        Item::Port(port) => match port.word {
            PortWord::Trn(_) => false,
            PortWord::Inp(_) => true,
            PortWord::Out(_) => false,
        },
        _ => false,
    }
}

/// Whether the item is the output.
fn is_out(item: &Item) -> bool
    ensures { result ≡ spec.is_out item.now }
{
    match item {
        Item::Port(port) => match port.word {
            PortWord::Trn(_) => false,
            PortWord::Inp(_) => false,
            PortWord::Out(_) => true,
        },
        _ => false,
    }
}

/// Whether the input was seen, before the item or with it.
pub fn with_inp(before: bool, item: &Item) -> bool
    ensures { result ≡ (before || spec.is_inp item.now) }
{
    before || is_inp(item)
}

/// Whether the output was seen, before the item or with it.
pub fn with_out(before: bool, item: &Item) -> bool
    ensures { result ≡ (before || spec.is_out item.now) }
{
    before || is_out(item)
}

/// Whether the item is a register, or registers.
fn is_register(item: &Item) -> bool
    ensures { result ≡ faults.is_register item.now }
{
    match item {
        Item::Storage(storage) => match storage.word {
            StorageWord::Mem(_) => false,
            StorageWord::Reg(_) => true,
        },
        _ => false,
    }
}

/// Whether the item is a rule.
pub fn is_rule(item: &Item) -> bool
    ensures { result ≡ faults.is_rule item.now }
{
    match item {
        Item::OrRule(_) => true,
        Item::OpRule(_) => true,
        Item::ModeRule(_) => true,
        _ => false,
    }
}

/// Whether an item before the one of this number declares the name.
fn is_before(names: &IndexMap<Text, Declaration>, number: usize, name: &Text) -> bool
    ensures { result ≡ spec.is_before number (lookup (text_eq name.now) names.now.entries) }
{
    match names.get(name) {
        None => false,
        Some(found) => found.first < number,
    }
}

/// Where an item stands: the names of all, its number, and which ports stand before it.
#[derive(Clone, Copy)]
pub struct Standing<'a> {
    pub names: &'a IndexMap<Text, Declaration>,
    pub number: usize,
    pub inp: bool,
    pub out: bool,
}

/// Whether the item is a second port of its kind.
fn is_second(at: &Standing<'_>, item: &Item) -> bool
    ensures { result ≡ spec.is_second at.now.inp at.now.out item.now }
{
    (at.inp && is_inp(item)) || (at.out && is_out(item))
}

/// Whether the item is called `PC` and is no register.
fn is_other_pc(name: &Text, item: &Item) -> bool
    ensures { result ≡ (text_eq name.now (codes "PC") && not (faults.is_register item.now)) }
{
    name.as_bytes() == b"PC".as_slice() && !is_register(item)
}

/// Whether the item is called `instruction` and is no rule.
fn is_other_root(name: &Text, item: &Item) -> bool
    ensures { result ≡ (text_eq name.now (codes "instruction") && not (faults.is_rule item.now)) }
{
    name.as_bytes() == b"instruction".as_slice() && !is_rule(item)
}

/// Notes the item's own name where it stands before, or isn't what it must be.
#[tactic(auto, using(crate::proofs::Notes::noted_append))]
fn own(at: &Standing<'_>, item: &Item, found: Option<u32>) -> Option<u32>
    ensures { result ≡ noted found (spec.own_places at.now.names.now.entries at.now.number at.now.inp at.now.out item.now) }
{
    let name = declared_name(item);
    let found = note(found, is_before(at.names, at.number, &name.text), name.at);
    let found = note(found, is_second(at, item), name.at);
    let found = note(found, is_other_pc(&name.text, item), name.at);
    note(found, is_other_root(&name.text, item), name.at)
}

/// Notes the least place at which a name of the item is unknown, or repeated, or isn't what it must be.
pub fn item_names(
    alloc: Global,
    at: &Standing<'_>,
    item: &Item,
    found: Option<u32>,
) -> Result<Option<u32>, Memory>
    ensures { IfOk result (λ r. r ≡ spec.item_found at.now.names.now.entries at.now.number at.now.inp at.now.out item.now found) }
{
    let pars = pars_of(item);
    let (keys, found) = parameters(alloc, pars, found)?;
    let scope = Scope {
        names: at.names,
        pars: &keys,
        number: at.number,
    };
    let found = uses(&scope, item, found);
    let found = own(at, item, found);
    Ok(shared(at.names, pars, found))
}
