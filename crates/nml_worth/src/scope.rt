//! What stands round the expressions of a rule.

ghost use Rattle.std.specs.Prelude.{◌≡◌, ◌∷◌, IfOk, List, OnOk, map, option_map};
ghost use Rattle.nml_known.specs.Known.{parameter_told};
ghost use Rattle.nml_tree.specs.Directives as directives;
ghost use Rattle.nml_tree.specs.Worth.{of_name};
ghost use Rattle.nml_tree.specs.declared.tree.Par.{Par};
ghost use Rattle.nml_tree.specs.Table.{parameter_of, pars_of, table};
ghost use Rattle.nml_worth.specs.Around as spec;
ghost use Rattle.nml_worth.specs.Around.{AreGiven, PartKnown, PartsIn, PartsKnown, around};
ghost use Rattle.nml_worth.specs.Shown.{shown};

use crate::told::{of_known, of_type};
use crate::worth::{Worth, unknown};
use indexmap::IndexMap;
use nk_base::{Memory, Text};
use nml_known::{Names, Parameter};
use nml_tree::{Par, Pars};
use std::alloc::Global;
use std::marker::Model;

/// A parameter: what it is, and what it is worth.
#[derive(Clone, Copy)]
pub struct Given {
    pub parameter: Option<Parameter>,
    pub worth: Worth,
}

/// What stands round the expressions of a rule: the names of the description, and the rule's parameters.
///
/// A parameter hides a declared name, and of several parameters of one name the first counts. The rule is this project's own.
#[derive(Drop)]
pub struct Scope<'a> {
    names: &'a Names<'a>,
    pars: &'a Option<Pars>,
    found: IndexMap<Text, Given>,
}

impl<'a> Model for Scope<'a> {
    ghost use Rattle.std.specs.Coded.{codes, coded×};
    ghost use Rattle.nml_tree.specs.contracts.tree.Desc as d;
    ghost use Rattle.nml_tree.specs.contracts.tree.Pars as p;
    ghost use Rattle.nml_tree.specs.Table.{pars_of};
    ghost use Rattle.nml_worth.specs.Around.{AreGiven, Place};

    ghost Value = { Place };

    ghost coded = { Prim.hlevel (codes, d.the_row.coded, p.the_row.coded) };

    ghost view = { λ s. (s.names.now, s.pars.now) };

    ghost invariant = { λ s. AreGiven s.names.now (pars_of s.pars.now) s.found.entries };
}

impl<'a> Scope<'a> {
    /// What stands round the expressions of a rule with these parameters, `worths` being what each rule is worth, by the number of its item;
    /// of the rules only those of the parts among the parameters are looked at. The one error is want of memory.
    pub fn new(
        alloc: Global,
        names: &'a Names<'a>,
        pars: &'a Option<Pars>,
        worths: &[Worth],
    ) -> Result<Scope<'a>, Memory>
        requires { PartsKnown (names.now, pars.now) worths.now }
        ensures { IfOk result (λ s. s ≡ (names.now, pars.now)) }
    {
        let found = all_given(alloc, names, pars, worths)?;
        Ok(Scope { names, pars, found })
    }

    /// The names of the description. It takes no memory.
    pub fn names(&self) -> &Names<'a>
        ensures { result.now ≡ self.now.0 }
    {
        self.names
    }

    /// What the name is worth as an expression. It takes no memory.

    pub fn name(&self, name: &Text) -> Worth
        ensures { result ≡ shown (of_name (around self.now) name.now) }
    {
        match self.found.get(name) {
            None => of_known(self.names.declared(name)),
            Some(given) => given.worth,
        }
    }

    /// What the parameter of this name is; `None` where there is none, or it is neither a field nor a part. It takes no memory.
    pub fn parameter(&self, name: &Text) -> Option<Parameter>
        ensures { result ≡ option_map (parameter_told self.now.0) (directives.parameter (around self.now).pars name.now) }
    {
        match self.found.get(name) {
            None => None,
            Some(given) => given.parameter,
        }
    }
}

/// What the parameter is worth.
fn par_worth(p: Option<Parameter>, worths: &[Worth]) -> Worth
    ensures { result ≡ spec.par_worth worths.now p }
{
    match p {
        None => unknown(),
        Some(Parameter::Field(ty)) => of_type(ty),
        Some(Parameter::Part(n)) => match worths.get(n) {
            None => unknown(),
            Some(w) => *w,
        },
    }
}

/// What is told of the parameter.
fn told_of(names: &Names<'_>, p: &Par, worths: &[Worth]) -> Given
    requires { PartKnown names.now worths.now (parameter_of (table names.now) p.now.ty) }
    ensures { result ≡ spec.given names.now (parameter_of (table names.now) p.now.ty) }
{
    let parameter = names.parameter_of(&p.ty);
    Given {
        parameter,
        worth: par_worth(parameter, worths),
    }
}

/// Adds the parameter before those that are there.
fn add(
    names: &Names<'_>,
    p: &Par,
    worths: &[Worth],
    found: &mut IndexMap<Text, Given>,
) -> Result<(), Memory>
    requires { PartKnown names.now worths.now (parameter_of (table names.now) p.now.ty) }
    ensures { OnOk result ((ps : List Par) → AreGiven names.now ps found.old.entries → AreGiven names.now (p.now ∷ ps) found.new.entries) }
{
    let one = told_of(names, p, worths);
    found.insert(p.name.text.clone()?, one)?;
    Ok(())
}

/// Further parameters.
fn further(
    alloc: Global,
    names: &Names<'_>,
    rest: &[(u32, Par)],
    worths: &[Worth],
) -> Result<IndexMap<Text, Given>, Memory>
    requires { PartsIn names.now worths.now (map (λ (comma, p). p) rest.now) }
    ensures { IfOk result (λ m. AreGiven names.now (map (λ (comma, p). p) rest.now) m.entries) }
{
    let mut found = IndexMap::new(alloc);
    for i in (0..rest.len()).rev() {
        add(names, &rest[i].1, worths, &mut found)?;
    }
    Ok(found)
}

/// The parameters of a rule.
fn all_given(
    alloc: Global,
    names: &Names<'_>,
    pars: &Option<Pars>,
    worths: &[Worth],
) -> Result<IndexMap<Text, Given>, Memory>
    requires { PartsIn names.now worths.now (pars_of pars.now) }
    ensures { IfOk result (λ m. AreGiven names.now (pars_of pars.now) m.entries) }
{
    match pars {
        None => Ok(IndexMap::new(alloc)),
        Some(ps) => {
            let mut found = further(alloc, names, ps.rest.as_slice(), worths)?;
            add(names, &ps.first, worths, &mut found)?;
            Ok(found)
        }
    }
}
