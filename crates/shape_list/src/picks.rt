//! The picks of all shapes.

ghost use Rattle.std.specs.Prelude.{◌≡◌, ◌++◌, ◌∷◌, codes, map, IfOk, OnOk};
ghost use Rattle.nml_tree.specs.Refused.{IsFreeBelow};
ghost use Rattle.nml_tree.specs.ShapeList.{joined, of_alternatives, of_parameter, of_parameters, shape_list_within};
ghost use Rattle.nml_tree.specs.Shapes.{AreShapes};
ghost use Rattle.nml_tree.specs.Table.{pars_of, parameter_of, table};
ghost use Rattle.shape_list.specs.Body.{alternatives_of};

use crate::rule::{Body, part_of, rule_named};
use nk_base::{Memory, Text};
use nml_known::Names;
use nml_tree::{OrRule, Par, Pars};
use sqlite_items::Items;
use std::alloc::Global;

/// The picks of all shapes of `instruction`, alternatives in the text's order, the leftmost part changing slowest.
///
/// A rule is listed anew wherever it is named, so the time is that of all rules of all derivations, whatever the text's length. The rule is
/// this project's own. The one error is want of memory, which is also answered where a rule has over 2^32 alternatives.
pub fn all_picks(alloc: Global, names: &Names<'_>) -> Result<Vec<Items<u32>>, Memory>
    requires { IsFreeBelow 12 names.now }
    ensures { IfOk result (λ all. AreShapes (table names.now) all.items) }
{
    let root = Text::from_bytes(alloc, b"instruction".as_slice())?;
    list(alloc, names, &root, names.items().len())
}

/// The picks of a rule, which looks through at most so many rules below one another.
#[cycle(list)]
fn list(
    alloc: Global,
    names: &Names<'_>,
    name: &Text,
    limit: usize,
) -> Result<Vec<Items<u32>>, Memory>
    ensures { IfOk result (λ all. all.items ≡ shape_list_within (table names.now) limit name.now) }
{
    if limit == 0 {
        return Ok(Vec::new(alloc));
    }
    match rule_named(names, name) {
        Body::Nothing => Ok(Vec::new(alloc)),
        Body::Or(rule) => alternatives(alloc, names, rule, limit - 1),
        Body::And(pars, _) => parameters(alloc, names, pars, limit - 1),
    }
}

/// The number of each alternative before each of its picks.
#[cycle(list)]
fn alternatives(
    alloc: Global,
    names: &Names<'_>,
    rule: &OrRule,
    limit: usize,
) -> Result<Vec<Items<u32>>, Memory>
    ensures { IfOk result (λ all. all.items ≡ of_alternatives (shape_list_within (table names.now) limit) 0 (alternatives_of rule.now)) }
{
    let mut all = Vec::new(alloc);
    push_alternative(alloc, names, &rule.first.text, 0, limit, &mut all)?;
    let rest = rule.rest.as_slice();
    for i in 0..rest.len() {
        let name = &rest[i].1.text;
        push_alternative(alloc, names, name, i + 1, limit, &mut all)?;
    }
    Ok(all)
}

/// Appends the picks of an alternative, its number before each.
#[cycle(list)]
fn push_alternative(
    alloc: Global,
    names: &Names<'_>,
    name: &Text,
    number: usize,
    limit: usize,
    all: &mut Vec<Items<u32>>,
) -> Result<(), Memory>
    ensures { OnOk result (all.new.items ≡ all.old.items ++ map (λ x. number ∷ x) (shape_list_within (table names.now) limit name.now)) }
{
    if number > 4_294_967_295 {
        return Err(Memory);
    }
    let below = list(alloc, names, name, limit)?;
    extend(alloc, all, &[number as u32], below.as_slice())
}

/// The picks of the parameters together, the first changing slowest.
#[cycle(list)]
fn parameters(
    alloc: Global,
    names: &Names<'_>,
    pars: &Option<Pars>,
    limit: usize,
) -> Result<Vec<Items<u32>>, Memory>
    ensures { IfOk result (λ all. all.items ≡ of_parameters (table names.now) (shape_list_within (table names.now) limit) (pars_of pars.now)) }
{
    let mut all = Vec::new(alloc);
    all.push(Items::new(alloc))?;
    match pars {
        None => Ok(all),
        Some(pars) => {
            let rest = pars.rest.as_slice();
            for i in (0..rest.len()).rev() {
                all = before_all(alloc, names, &rest[i].1, limit, all)?;
            }
            before_all(alloc, names, &pars.first, limit, all)
        }
    }
}

/// The picks of the parameter, each before each of these.
#[cycle(list)]
fn before_all(
    alloc: Global,
    names: &Names<'_>,
    par: &Par,
    limit: usize,
    all: Vec<Items<u32>>,
) -> Result<Vec<Items<u32>>, Memory>
    ensures { IfOk result (λ more. more.items ≡ joined (of_parameter (shape_list_within (table names.now) limit) (parameter_of (table names.now) par.now.ty)) all.items) }
{
    match part_of(names, &par.ty) {
        None => Ok(all),
        Some(rule) => {
            let first = list(alloc, names, rule, limit)?;
            cross(alloc, first.as_slice(), all.as_slice())
        }
    }
}

/// Each of the first before each of the second.
fn cross(
    alloc: Global,
    first: &[Items<u32>],
    second: &[Items<u32>],
) -> Result<Vec<Items<u32>>, Memory>
    ensures { IfOk result (λ all. all.items ≡ joined first.now second.now) }
{
    let mut all = Vec::new(alloc);
    for x in first {
        extend(alloc, &mut all, x.as_slice(), second)?;
    }
    Ok(all)
}

/// Appends these picks before each of the lists.
fn extend(
    alloc: Global,
    all: &mut Vec<Items<u32>>,
    x: &[u32],
    second: &[Items<u32>],
) -> Result<(), Memory>
    ensures { OnOk result (all.new.items ≡ all.old.items ++ map (λ y. x.now ++ y) second.now) }
{
    for y in second {
        let mut picks = Vec::from_slice(alloc, x)?;
        picks.extend_from_slice(y.as_slice())?;
        all.push(Items::from_vec(picks))?;
    }
    Ok(())
}
