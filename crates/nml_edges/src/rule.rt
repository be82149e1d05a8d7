//! The summary of an item's texts, made of those of the rules that it names.

ghost use Rattle.std.specs.Prelude.{◌≡◌, List, ℕ, map, IfOk};
ghost use Rattle.std.specs.Map.{lookup};
ghost use Rattle.nk_base.specs.Text.{text_eq};
ghost use Rattle.nml_edges.specs.Passed as spec;
ghost use Rattle.nml_edges.specs.Passed.{any_sum, par_sums, rule_sum};
ghost use Rattle.nml_tree.specs.Table.{pars_of};

use crate::glyph::Glyph;
use crate::summary::{Summary, both, none, one, seamed};
use crate::text::of_text;
use indexmap::IndexMap;
use nk_base::{Memory, Text};
use nml_known::{Names, Parameter};
use nml_tree::{Attrs, Item, Name, Par, Pars};
use std::alloc::Global;

/// The summary at the number.
pub fn fact(facts: &[Summary], number: Option<usize>) -> Summary
    ensures { result ≡ spec.fact facts.now number }
{
    match number {
        None => none(),
        Some(n) => match facts.get(n) {
            None => none(),
            Some(m) => *m,
        },
    }
}

/// Of a field, or of a part, whose text has a seam before and behind it.
fn of_parameter(facts: &[Summary], what: Option<Parameter>) -> Summary
    ensures { result ≡ spec.of_parameter facts.now what }
{
    match what {
        None => none(),
        Some(Parameter::Field(_)) => one(Glyph::Number),
        Some(Parameter::Part(n)) => seamed(&fact(facts, Some(n))),
    }
}

/// Of a parameter.
fn par_sum(names: &Names<'_>, facts: &[Summary], p: &Par) -> Summary
    ensures { result ≡ spec.par_sum names.now facts.now p.now }
{
    of_parameter(facts, names.parameter_of(&p.ty))
}

/// Of further parameters, by their names.
fn further_sums(
    alloc: Global,
    names: &Names<'_>,
    facts: &[Summary],
    rest: &[(u32, Par)],
) -> Result<IndexMap<Text, Summary>, Memory>
    ensures { IfOk result (λ sums. (name : List ℕ) → lookup (text_eq name) sums.entries ≡ lookup (text_eq name) (par_sums names.now facts.now (map (λ (comma, p). p) rest.now))) }
{
    let mut sums = IndexMap::new(alloc);
    for i in (0..rest.len()).rev() {
        let p = &rest[i].1;
        sums.insert(p.name.text.clone()?, par_sum(names, facts, p))?;
    }
    Ok(sums)
}

/// Of the parameters, by their names.
fn all_par_sums(
    alloc: Global,
    names: &Names<'_>,
    facts: &[Summary],
    pars: &Option<Pars>,
) -> Result<IndexMap<Text, Summary>, Memory>
    ensures { IfOk result (λ sums. (name : List ℕ) → lookup (text_eq name) sums.entries ≡ lookup (text_eq name) (par_sums names.now facts.now (pars_of pars.now))) }
{
    match pars {
        None => Ok(IndexMap::new(alloc)),
        Some(ps) => {
            let mut sums = further_sums(alloc, names, facts, ps.rest.as_slice())?;
            let p = &ps.first;
            sums.insert(p.name.text.clone()?, par_sum(names, facts, p))?;
            Ok(sums)
        }
    }
}

/// Of an and-rule.
fn of_rule(
    alloc: Global,
    names: &Names<'_>,
    facts: &[Summary],
    pars: &Option<Pars>,
    attrs: &Attrs,
) -> Result<Summary, Memory>
    ensures { IfOk result (λ m. m ≡ rule_sum names.now facts.now (pars_of pars.now) attrs.now.syntax_text) }
{
    let sums = all_par_sums(alloc, names, facts, pars)?;
    Ok(of_text(&sums, &attrs.syntax_text))
}

/// Of alternatives, behind a first.
fn of_alternatives(
    names: &Names<'_>,
    facts: &[Summary],
    first: Summary,
    rest: &[(u32, Name)],
) -> Summary
    ensures { result ≡ any_sum names.now facts.now first (map (λ (bar, n). n.text) rest.now) }
{
    let mut m = first;
    for (_, n) in rest {
        m = both(&m, &fact(facts, names.number(&n.text)));
    }
    m
}

/// Of an item, these being the summaries of those that it names. The one error is want of memory.
pub fn of_item(
    alloc: Global,
    names: &Names<'_>,
    facts: &[Summary],
    item: &Item,
) -> Result<Summary, Memory>
    ensures { IfOk result (λ m. m ≡ spec.item_sum names.now facts.now item.now) }
{
    match item {
        Item::Let(_, _, _, _, _) => Ok(none()),
        Item::Type(_, _, _, _) => Ok(none()),
        Item::Storage(_) => Ok(none()),
        Item::Port(_) => Ok(none()),
        Item::OrRule(r) => {
            let first = both(&none(), &fact(facts, names.number(&r.first.text)));
            Ok(of_alternatives(names, facts, first, r.rest.as_slice()))
        }
        Item::OpRule(r) => of_rule(alloc, names, facts, &r.pars, &r.attrs),
        Item::ModeRule(r) => of_rule(alloc, names, facts, &r.pars, &r.attrs),
    }
}
