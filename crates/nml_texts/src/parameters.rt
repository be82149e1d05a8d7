//! The parameters of a rule, as far as directives ask.

ghost use Rattle.std.specs.Prelude.{◌≡◌, ◌∷◌, ◌++◌, [], ℕ, List, OnOk, IfOk, Some, cond, is_some};
ghost use Rattle.std.specs.Map.{lookup};
ghost use Rattle.nk_base.specs.Text.{text_eq};
ghost use Rattle.nml_texts.specs.Around.{further, what_are};
ghost use Rattle.nml_texts.specs.Given as spec;
ghost use Rattle.nml_texts.specs.Given.{AreGiven};
ghost use Rattle.nml_tree.specs.Table.{parameter_of, pars_of, table};
ghost use Rattle.nml_tree.specs.declared.tree.Par as tree;

use crate::directive::Given;
use crate::widths::Widths;
use indexmap::IndexMap;
use nk_base::{Memory, Text};
use nml_known::Parameter;
use nml_tree::{Par, Pars};
use std::alloc::Global;
use std::marker::Model;

/// The parameters of a rule. Of several parameters of one name the first counts.
#[derive(Drop)]
pub struct Parameters<'a> {
    widths: &'a Widths<'a>,
    pars: &'a Option<Pars>,
    pub(crate) map: IndexMap<Text, Given>,
}

impl<'a> Model for Parameters<'a> {
    ghost use Rattle.std.specs.Prelude.{Option};
    ghost use Rattle.std.specs.Coded.{codes, coded×};
    ghost use Rattle.nml_texts.specs.Around.{around};
    ghost use Rattle.nml_texts.specs.Given.{AreGiven};
    ghost use Rattle.nml_tree.specs.contracts.tree.Desc as d;
    ghost use Rattle.nml_tree.specs.contracts.tree.Pars as p;
    ghost use Rattle.nml_tree.specs.declared.tree.Desc.{Desc};
    ghost use Rattle.nml_tree.specs.declared.tree.Pars as tree;

    ghost Value = { Desc × Option tree.Pars };

    ghost coded = { Prim.hlevel (codes, d.the_row.coded, p.the_row.coded) };

    ghost view = { λ s. (s.widths.now, s.pars.now) };

    ghost invariant = { λ s. AreGiven s.map.entries (around (s.widths.now, s.pars.now)) };
}

impl<'a> Parameters<'a> {
    /// The parameters of a rule. The one error is want of memory.
    pub fn new(
        alloc: Global,
        widths: &'a Widths<'a>,
        pars: &'a Option<Pars>,
    ) -> Result<Parameters<'a>, Memory>
        ensures { IfOk result (λ s. s ≡ (widths.now, pars.now)) }
    {
        let map = all_given(alloc, widths, pars)?;
        Ok(Parameters { widths, pars, map })
    }
}

/// What is told of the parameter.
fn given(widths: &Widths<'_>, p: &Par) -> Given
    ensures { result ≡ spec.given (parameter_of (table widths.now) p.now.ty) }
{
    match widths.names.parameter_of(&p.ty) {
        None => Given::Neither,
        Some(Parameter::Field(_)) => Given::Field(widths.of(&p.ty)),
        Some(Parameter::Part(_)) => Given::Part,
    }
}

/// Whether something is told of the name.
fn has(map: &IndexMap<Text, Given>, name: &Text) -> bool
    ensures { result ≡ is_some (lookup (text_eq name.now) map.now.entries) }
{
    match map.get(name) {
        None => false,
        Some(_) => true,
    }
}

/// Tells this of the name.
fn tell(map: &mut IndexMap<Text, Given>, key: Text, what: Given) -> Result<(), Memory>
    ensures { OnOk result ((name : List ℕ) → lookup (text_eq name) map.new.entries ≡ cond (text_eq key name) (Some what) (lookup (text_eq name) map.old.entries)) }
{
    map.insert(key, what)?;
    Ok(())
}

/// Adds the parameter, unless there is one of its name.
fn add(widths: &Widths<'_>, map: &mut IndexMap<Text, Given>, p: &Par) -> Result<(), Memory>
    ensures { OnOk result ((ps : List tree.Par) → AreGiven map.old.entries (what_are widths.now ps) → AreGiven map.new.entries (what_are widths.now (ps ++ p.now ∷ []))) }
{
    if has(map, &p.name.text) {
        return Ok(());
    }
    let key = p.name.text.clone()?;
    tell(map, key, given(widths, p))?;
    Ok(())
}

/// Adds further parameters.
fn add_rest(
    widths: &Widths<'_>,
    map: &mut IndexMap<Text, Given>,
    rest: &[(u32, Par)],
) -> Result<(), Memory>
    ensures { OnOk result ((ps : List tree.Par) → AreGiven map.old.entries (what_are widths.now ps) → AreGiven map.new.entries (what_are widths.now (ps ++ further rest.now))) }
{
    for (_, p) in rest {
        add(widths, map, p)?;
    }
    Ok(())
}

/// What is told of the parameters.
fn all_given(
    alloc: Global,
    widths: &Widths<'_>,
    pars: &Option<Pars>,
) -> Result<IndexMap<Text, Given>, Memory>
    ensures { IfOk result (λ m. AreGiven m.entries (what_are widths.now (pars_of pars.now))) }
{
    let mut map = IndexMap::new(alloc);
    match pars {
        None => Ok(map),
        Some(ps) => {
            add(widths, &mut map, &ps.first)?;
            add_rest(widths, &mut map, ps.rest.as_slice())?;
            Ok(map)
        }
    }
}
