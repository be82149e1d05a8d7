//! The parameters of a rule.
ghost use Rattle.std.specs.Prelude.{◌≡◌, ◌||◌, [], flat_map, map, codes, IfOk, OnOk};
ghost use Rattle.std.specs.Option.{option_copied};
ghost use Rattle.std.specs.List.{list_any};
ghost use Rattle.std.specs.Map.{lookup};
ghost use Rattle.indexmap.specs.IndexSet.{insert_key};
ghost use Rattle.nk_base.specs.Text.{text_eq};
ghost use Rattle.nml_tree.specs.Places.{when};
ghost use Rattle.nml_tree.specs.Table.{pars_of};
ghost use Rattle.nml_tree.specs.Uses as uses;
ghost use Rattle.nml_names.specs.Note.{noted};
ghost use Rattle.nml_names.specs.Found as spec;
ghost use Rattle.nml_names.specs.Found.{met, is_found, is_repeated, repeated, with_names, all_shared, names_of, names_in};

use crate::names::Declaration;
use crate::noting::{earlier, note};
use crate::scope::Scope;
use crate::used::ty;
use indexmap::{IndexMap, IndexSet};
use nk_base::{Memory, Text};
use nml_tree::{Name, Par, Pars};
use std::alloc::Global;

/// Whether a parameter can't be called so, these being before it.
fn is_repeated(keys: &IndexSet<Text>, p: &Name) -> bool
    ensures { result ≡ spec.is_repeated keys.now.keys p.now }
{
    keys.contains(&p.text)
        || p.text.as_bytes() == b"PC".as_slice()
        || p.text.as_bytes() == b"instruction".as_slice()
}

/// Adds the parameter's name to those before it, and notes it where it can't be called so.
fn parameter(keys: &mut IndexSet<Text>, p: &Name, found: Option<u32>) -> Result<Option<u32>, Memory>
    ensures keys { OnOk result (keys.new.keys ≡ insert_key text_eq keys.old.keys p.now.text) }
    ensures found { IfOk result (λ r. r ≡ noted found (when (spec.is_repeated keys.old.keys p.now) p.now.at)) }
{
    let bad = is_repeated(keys, p);
    keys.insert(p.text.clone()?)?;
    Ok(note(found, bad, p.at))
}

/// The same for further parameters.
#[tactic(auto, using(crate::proofs::Notes::noted_append))]
fn further(
    keys: &mut IndexSet<Text>,
    rest: &[(u32, Par)],
    found: Option<u32>,
) -> Result<Option<u32>, Memory>
    ensures keys { OnOk result (keys.new.keys ≡ with_names keys.old.keys (names_in rest.now)) }
    ensures found { IfOk result (λ r. r ≡ noted found (repeated keys.old.keys (names_in rest.now))) }
{
    let mut found = found;
    for (_, p) in rest {
        found = parameter(keys, &p.name, found)?;
    }
    Ok(found)
}

/// The names of the parameters, and the least place of one that can't be called so.
#[tactic(auto, using(crate::proofs::Notes::noted_append))]
pub fn parameters(
    alloc: Global,
    pars: Option<&Pars>,
    found: Option<u32>,
) -> Result<(IndexSet<Text>, Option<u32>), Memory>
    ensures keys { IfOk result (λ r. r.0.keys ≡ with_names [] (names_of (option_copied pars.entry))) }
    ensures found { IfOk result (λ r. r.1 ≡ noted found (repeated [] (names_of (option_copied pars.entry)))) }
{
    let mut keys = IndexSet::new(alloc);
    match pars {
        None => Ok((keys, found)),
        Some(ps) => {
            let found = parameter(&mut keys, &ps.first.name, found)?;
            let found = further(&mut keys, ps.rest.as_slice(), found)?;
            Ok((keys, found))
        }
    }
}

/// Notes the parameter where an item declares its name: the later of the two.
fn shared_one(names: &IndexMap<Text, Declaration>, p: &Name, found: Option<u32>) -> Option<u32>
    ensures { result ≡ noted found (spec.shared p.now.at (lookup (text_eq p.now.text) names.now.entries)) }
{
    match names.get(&p.text) {
        None => found,
        Some(declared) => {
            let later = if p.at < declared.place {
                declared.place
            } else {
                p.at
            };
            earlier(found, Some(later))
        }
    }
}

/// The same for further parameters.
#[tactic(auto, using(crate::proofs::Notes::noted_append))]
fn shared_rest(
    names: &IndexMap<Text, Declaration>,
    rest: &[(u32, Par)],
    found: Option<u32>,
) -> Option<u32>
    ensures { result ≡ noted found (all_shared names.now.entries (names_in rest.now)) }
{
    let mut found = found;
    for (_, p) in rest {
        found = shared_one(names, &p.name, found);
    }
    found
}

/// Notes the least place at which a parameter and an item have one name, the later of the two.
#[tactic(auto, using(crate::proofs::Notes::noted_append))]
pub fn shared(
    names: &IndexMap<Text, Declaration>,
    pars: Option<&Pars>,
    found: Option<u32>,
) -> Option<u32>
    ensures { result ≡ noted found (all_shared names.now.entries (names_of (option_copied pars.entry))) }
{
    match pars {
        None => found,
        Some(ps) => {
            let found = shared_one(names, &ps.first.name, found);
            shared_rest(names, ps.rest.as_slice(), found)
        }
    }
}

/// Notes the least name in the types of further parameters that isn't known.
#[tactic(auto, using(crate::proofs::Notes::met_append))]
fn types_rest(s: &Scope<'_>, rest: &[(u32, Par)], found: Option<u32>) -> Option<u32>
    ensures { result ≡ met (is_found s.now) found (flat_map (λ p. uses.in_type p.ty) (map (λ (comma, p). p) rest.now)) }
{
    let mut found = found;
    for (_, p) in rest {
        found = ty(s, &p.ty, found);
    }
    found
}

/// Notes the least name in the parameters' types that isn't known.
#[tactic(auto, using(crate::proofs::Notes::met_append))]
pub fn types(s: &Scope<'_>, pars: &Option<Pars>, found: Option<u32>) -> Option<u32>
    ensures { result ≡ met (is_found s.now) found (uses.in_pars pars.now) }
{
    match pars {
        None => found,
        Some(ps) => types_rest(s, ps.rest.as_slice(), ty(s, &ps.first.ty, found)),
    }
}
