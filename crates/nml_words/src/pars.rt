//! The widths of what rules name.

ghost use Rattle.std.specs.Prelude.{◌≡◌, ◌∷◌, [], List, ℕ, map, IfOk, OnOk};
ghost use Rattle.nml_tree.specs.Table.{pars_of};
ghost use Rattle.nml_words.specs.Span.{AreGiven, par_spans};
ghost use Rattle.nml_words.specs.Words as spec;
ghost use Rattle.nml_words.specs.Words.{par_span};
ghost use Rattle.nml_words.specs.declared.span.Span.{Span};

use crate::span::Span;
use indexmap::IndexMap;
use nk_base::{Memory, Text};
use nml_known::{Names, Parameter};
use nml_tree::{Par, Pars};
use std::alloc::Global;

/// What stands at the number.
pub fn span_at(spans: &[Span], number: usize) -> Span
    ensures { result ≡ spec.span_at spans.now number }
{
    match spans.get(number) {
        None => Span::one(0),
        Some(s) => *s,
    }
}

/// What stands at the number of the name.
pub fn span_named(names: &Names<'_>, spans: &[Span], name: &Text) -> Span
    ensures { result ≡ spec.span_named names.now spans.now name.now }
{
    match names.number(name) {
        None => span_at(spans, 0),
        Some(n) => span_at(spans, n),
    }
}

/// Those of a parameter.
fn parameter_span(spans: &[Span], p: Option<Parameter>) -> Span
    ensures { result ≡ spec.parameter_span spans.now p }
{
    match p {
        None => Span::one(0),
        Some(Parameter::Field(ty)) => Span::one(u64::from(ty.width())),
        Some(Parameter::Part(n)) => span_at(spans, n),
    }
}

/// Puts the parameter's into the map.
fn put(
    names: &Names<'_>,
    spans: &[Span],
    p: &Par,
    given: &mut IndexMap<Text, Span>,
) -> Result<(), Memory>
    ensures { OnOk result ((rest : List (List ℕ × Span)) → AreGiven given.old.entries rest → AreGiven given.new.entries ((p.now.name.text, par_span names.now spans.now p.now) ∷ rest)) }
{
    let span = parameter_span(spans, names.parameter_of(&p.ty));
    given.insert(p.name.text.clone()?, span)?;
    Ok(())
}

/// Puts those of further parameters into the empty map, the last first, so that of two of one name the first counts.
fn put_rest(
    names: &Names<'_>,
    spans: &[Span],
    rest: &[(u32, Par)],
    given: &mut IndexMap<Text, Span>,
) -> Result<(), Memory>
    requires { AreGiven given.old.entries [] }
    ensures { OnOk result (AreGiven given.new.entries (par_spans (par_span names.now spans.now) (map (λ (comma, p). p) rest.now))) }
{
    for i in (0..rest.len()).rev() {
        put(names, spans, &rest[i].1, given)?;
    }
    Ok(())
}

/// Those of the parameters by their names.
pub fn spans_of(
    alloc: Global,
    names: &Names<'_>,
    spans: &[Span],
    pars: &Option<Pars>,
) -> Result<IndexMap<Text, Span>, Memory>
    ensures { IfOk result (λ m. AreGiven m.entries (par_spans (par_span names.now spans.now) (pars_of pars.now))) }
{
    match pars {
        None => Ok(IndexMap::new(alloc)),
        Some(ps) => {
            let mut given = IndexMap::new(alloc);
            put_rest(names, spans, ps.rest.as_slice(), &mut given)?;
            put(names, spans, &ps.first, &mut given)?;
            Ok(given)
        }
    }
}
