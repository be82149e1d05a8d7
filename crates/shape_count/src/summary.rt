//! What an and-rule's own text counts.

ghost use Rattle.std.specs.Prelude.{◌≡◌, ◌∷◌, [], ◌+◌, List, ℕ, length, map, IfOk, OnOk};
ghost use Rattle.nml_tree.specs.Block.{action_block};
ghost use Rattle.nml_tree.specs.Table as table;
ghost use Rattle.nml_tree.specs.Table.{pars_of};
ghost use Rattle.shape_count.specs.Sizes.{finds};
ghost use Rattle.shape_count.specs.Weights as weights;
ghost use Rattle.shape_count.specs.Weights.{AreActs, AreGiven, AreSummaries, IsItemSummary, IsSummary, numbered, par_names};

use crate::count::{action_size, expr};
use crate::scope::Scope;
use indexmap::IndexMap;
use nk_base::{Memory, Text};
use nml_known::Names;
use nml_tree::{Action, Item, ModeRule, OpRule, Par, Pars};
use std::alloc::Global;

/// The size of an action's own text, how often it names each parameter, and how often the action of each stands in it.
#[derive(Drop)]
pub struct Acts {
    pub own: u32,
    pub counts: Vec<u32>,
    pub actions: Vec<u32>,
}

/// The size of a rule's own value, how often it names each parameter, and the same of its action.
#[derive(Drop)]
pub struct Summary {
    pub value: u32,
    pub value_counts: Vec<u32>,
    pub acts: Acts,
}

/// How many parameters there are.
fn par_count(pars: &Option<Pars>) -> usize
    ensures { result ≡ length (pars_of pars.now) }
{
    match pars {
        None => 0,
        Some(ps) => 1 + ps.rest.as_slice().len(),
    }
}

/// Puts the parameter's place into the map.
fn put(p: &Par, place: usize, places: &mut IndexMap<Text, usize>) -> Result<(), Memory>
    ensures { OnOk result ((rest : List (List ℕ × ℕ)) → AreGiven places.old.entries rest → AreGiven places.new.entries ((p.now.name.text, place) ∷ rest)) }
{
    places.insert(p.name.text.clone()?, place)?;
    Ok(())
}

/// Puts those of further parameters into the empty map, the last first, so that of two of one name the first counts.
fn put_rest(rest: &[(u32, Par)], places: &mut IndexMap<Text, usize>) -> Result<(), Memory>
    requires { AreGiven places.old.entries [] }
    ensures { OnOk result (AreGiven places.new.entries (numbered 1 (par_names (map (λ (comma, p). p) rest.now)))) }
{
    for i in (0..rest.len()).rev() {
        put(&rest[i].1, i + 1, places)?;
    }
    Ok(())
}

/// The places of the parameters by their names.
fn places_of(alloc: Global, pars: &Option<Pars>) -> Result<IndexMap<Text, usize>, Memory>
    ensures { IfOk result (λ m. AreGiven m.entries (numbered 0 (par_names (pars_of pars.now)))) }
{
    match pars {
        None => Ok(IndexMap::new(alloc)),
        Some(ps) => {
            let mut places = IndexMap::new(alloc);
            put_rest(ps.rest.as_slice(), &mut places)?;
            put(&ps.first, 0, &mut places)?;
            Ok(places)
        }
    }
}

/// What the action of a rule with so many parameters counts.
fn acts_of(
    alloc: Global,
    s: &Scope<'_>,
    count: usize,
    action: &Option<Action>,
) -> Result<Acts, Memory>
    ensures { IfOk result (AreActs (finds s.now.names.now s.now.places.now.entries) (action_block action.now) count) }
{
    let mut counts = vec![in alloc; 0; count]?;
    let mut actions = vec![in alloc; 0; count]?;
    let own = action_size(s, action, &mut counts, &mut actions);
    Ok(Acts {
        own,
        counts,
        actions,
    })
}

/// That of an `op`.
fn op_summary(alloc: Global, names: &Names<'_>, rule: &OpRule) -> Result<Summary, Memory>
    ensures { IfOk result (IsSummary names.now (weights.op_rule rule.now)) }
{
    let places = places_of(alloc, &rule.pars)?;
    let s = Scope {
        names,
        places: &places,
    };
    let count = par_count(&rule.pars);
    let value_counts = vec![in alloc; 0; count]?;
    let acts = acts_of(alloc, &s, count, &rule.attrs.action)?;
    Ok(Summary {
        value: 1,
        value_counts,
        acts,
    })
}

/// That of a `mode`.
fn mode_summary(alloc: Global, names: &Names<'_>, rule: &ModeRule) -> Result<Summary, Memory>
    ensures { IfOk result (IsSummary names.now (weights.mode_rule rule.now)) }
{
    let places = places_of(alloc, &rule.pars)?;
    let s = Scope {
        names,
        places: &places,
    };
    let count = par_count(&rule.pars);
    let mut value_counts = vec![in alloc; 0; count]?;
    let value = expr(&s, &rule.value, &mut value_counts);
    let acts = acts_of(alloc, &s, count, &rule.attrs.action)?;
    Ok(Summary {
        value,
        value_counts,
        acts,
    })
}

/// Nothing counted.
fn nothing(alloc: Global) -> Summary {
    Summary {
        value: 0,
        value_counts: Vec::new(alloc),
        acts: Acts {
            own: 0,
            counts: Vec::new(alloc),
            actions: Vec::new(alloc),
        },
    }
}

/// That of an item; nothing where it is no and-rule.
fn item_summary(alloc: Global, names: &Names<'_>, item: &Item) -> Result<Summary, Memory>
    ensures { IfOk result (IsItemSummary names.now item.now) }
{
    match item {
        Item::Let(_, _, _, _, _) => Ok(nothing(alloc)),
        Item::Type(_, _, _, _) => Ok(nothing(alloc)),
        Item::Storage(_) => Ok(nothing(alloc)),
        Item::Port(_) => Ok(nothing(alloc)),
        Item::OrRule(_) => Ok(nothing(alloc)),
        Item::OpRule(rule) => op_summary(alloc, names, rule),
        Item::ModeRule(rule) => mode_summary(alloc, names, rule),
    }
}

/// That of each item.
pub fn summaries(alloc: Global, names: &Names<'_>) -> Result<Vec<Summary>, Memory>
    ensures { IfOk result (λ all. AreSummaries names.now (length names.now.items) all.items) }
{
    let items = names.items();
    let mut all = Vec::new(alloc);
    for number in 0..items.len() {
        let one = item_summary(alloc, names, &items[number])?;
        all.push(one)?;
    }
    Ok(all)
}
