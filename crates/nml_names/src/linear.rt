//! The first parameter that isn't named as often as it must be.
ghost use Rattle.std.specs.Prelude.{◌≡◌, ℕ, List, MatchOption, IfOk};
ghost use Rattle.std.specs.Option.{option_copied};
ghost use Rattle.std.specs.Map.{lookup};
ghost use Rattle.nk_base.specs.Text.{text_eq};
ghost use Rattle.nml_tree.specs.Mentions.{LinearFault};
ghost use Rattle.nml_tree.specs.Refused.{HasLinearFault, IsFirstParameter, IsFirstRule};
ghost use Rattle.nml_tree.specs.Table.{table};
ghost use Rattle.nml_tree.specs.Block.{action_block};
ghost use Rattle.nml_tree.specs.Uses.{in_text};
ghost use Rattle.nml_names.specs.Tallies as spec;
ghost use Rattle.nml_names.specs.Tallies.{first_other, attrs_linear, names_of, seen, nothing, tally, part_names};
ghost use Rattle.nml_names.specs.Found.{names_in};
ghost use Rattle.nml_names.specs.Found as first;

use crate::names::{Declaration, declarations, declared_name};
use crate::tally::{Tally, are_linear, in_action, in_template};
use indexmap::IndexMap;
use nk_base::{Memory, Text};
use nml_tree::{Attrs, Desc, Item, Par, Pars};
use std::alloc::Global;

/// The names in the attributes of a rule.
#[derive(Drop)]
struct Named {
    syntax: Tally,
    image: Tally,
    action: Tally,
}

/// The names in the attributes.
fn mentioned(alloc: Global, a: &Attrs) -> Result<Named, Memory>
    ensures syntax { IfOk result (λ n. seen n.syntax ≡ tally nothing (in_text a.now.syntax_text)) }
    ensures image { IfOk result (λ n. seen n.image ≡ tally nothing (in_text a.now.image_text)) }
    ensures action { IfOk result (λ n. seen n.action ≡ tally nothing (part_names (action_block a.now.action))) }
{
    Ok(Named {
        syntax: in_template(alloc, &a.syntax_text)?,
        image: in_template(alloc, &a.image_text)?,
        action: in_action(alloc, &a.action)?,
    })
}

/// Whether the parameter is named as often as it must be.
fn is_linear(n: &Named, p: &Text) -> bool
    ensures { result ≡ spec.named_linear n.now p.now }
{
    are_linear(&n.syntax, &n.image, &n.action, p)
}

/// The first of further parameters that isn't.
fn first_further(n: &Named, rest: &[(u32, Par)]) -> Result<Option<Text>, Memory>
    ensures { IfOk result (λ o. o ≡ first_other (spec.named_linear n.now) (names_in rest.now)) }
{
    for (_, p) in rest {
        if !is_linear(n, &p.name.text) {
            return Ok(Some(p.name.text.clone()?));
        }
    }
    Ok(None)
}

/// The first of the parameters that isn't.
fn first_of(n: &Named, pars: &Option<Pars>) -> Result<Option<Text>, Memory>
    ensures { IfOk result (λ o. o ≡ first_other (spec.named_linear n.now) (names_of pars.now)) }
{
    match pars {
        None => Ok(None),
        Some(ps) => {
            if !is_linear(n, &ps.first.name.text) {
                return Ok(Some(ps.first.name.text.clone()?));
            }
            first_further(n, ps.rest.as_slice())
        }
    }
}

/// The same of a rule with these attributes.
fn first_in_rule(alloc: Global, pars: &Option<Pars>, a: &Attrs) -> Result<Option<Text>, Memory>
    ensures { IfOk result (λ o. o ≡ first_other (attrs_linear a.now) (names_of pars.now)) }
{
    let n = mentioned(alloc, a)?;
    first_of(&n, pars)
}

/// The same of an item.
fn first_in_item(alloc: Global, item: &Item) -> Result<Option<Text>, Memory>
    ensures { IfOk result (λ o. o ≡ spec.other_parameter item.now) }
{
    match item {
        Item::Let(_, _, _, _, _) => Ok(None),
        Item::Type(_, _, _, _) => Ok(None),
        Item::Storage(_) => Ok(None),
        Item::Port(_) => Ok(None),
        Item::OrRule(_) => Ok(None),
        Item::OpRule(rule) => first_in_rule(alloc, &rule.pars, &rule.attrs),
        Item::ModeRule(rule) => first_in_rule(alloc, &rule.pars, &rule.attrs),
    }
}

/// Whether the item of this number is the first that declares the name.
fn is_first(names: &IndexMap<Text, Declaration>, number: usize, name: &Text) -> bool
    ensures { result ≡ first.is_first number (lookup (text_eq name.now) names.now.entries) }
{
    match names.get(name) {
        None => false,
        Some(found) => found.first == number,
    }
}

/// The first parameter of the item that isn't named as often as it must be, where the item is the first that declares its name.
fn fault_at(
    alloc: Global,
    names: &IndexMap<Text, Declaration>,
    number: usize,
    item: &Item,
) -> Result<Option<Text>, Memory>
    ensures { IfOk result (λ o. o ≡ spec.fault_at names.now.entries number item.now) }
{
    if is_first(names, number, &declared_name(item).text) {
        return first_in_item(alloc, item);
    }
    Ok(None)
}

/// The first parameter, of the first rule, that isn't named as often as it must be: the rule's name and the parameter's.
///
/// Each parameter stands exactly once in the rule's syntax and exactly once in its image, and its action is taken at most once. The
/// rule is this project's own. The one error is want of memory.
pub fn first_unlinear(alloc: Global, d: &Desc) -> Result<Option<(Text, Text)>, Memory>
    ensures { IfOk result (λ found. MatchOption found ((rule p : List ℕ) → LinearFault (table d.now) rule p → ⊥)
        (λ x. IsFirstRule d.now (HasLinearFault (table d.now)) x.0 × IsFirstParameter (table d.now) x.0 x.1)) }
{
    let items = d.items.as_slice();
    let names = declarations(alloc, items)?;
    for number in 0..items.len() {
        let item = &items[number];
        match fault_at(alloc, &names, number, item)? {
            None => (),
            Some(parameter) => {
                return Ok(Some((declared_name(item).text.clone()?, parameter)));
            }
        }
    }
    Ok(None)
}
