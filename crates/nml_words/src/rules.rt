//! The widths of the images of all rules.

ghost use Rattle.std.specs.Prelude.{◌≡◌, length, map, IfOk, OnOk};
ghost use Rattle.nml_names.specs.Below.{graph};
ghost use Rattle.graphs.specs.Graphs.{IsOrder};
ghost use Rattle.nml_tree.specs.Refused.{IsFreeBelow};
ghost use Rattle.nml_tree.specs.Table.{pars_of};
ghost use Rattle.nml_words.specs.Span as span;
ghost use Rattle.nml_words.specs.Span.{span_given, with_alternatives, par_spans};
ghost use Rattle.nml_words.specs.Words as spec;
ghost use Rattle.nml_words.specs.Words.{par_span, AreSpans};

use crate::pars::{span_named, spans_of};
use crate::span::Span;
use crate::text::text_span;
use nk_base::Memory;
use nml_known::Names;
use nml_tree::{Item, Name, Pars, Template};
use std::alloc::Global;

/// Those of an or-rule of these alternatives.
fn or_span(names: &Names<'_>, spans: &[Span], first: &Name, rest: &[(u32, Name)]) -> Span
    ensures { result ≡ with_alternatives (spec.span_named names.now spans.now) (spec.span_named names.now spans.now first.now.text) (map (λ (bar, n). n.text) rest.now) }
{
    let mut all = span_named(names, spans, &first.text);
    for (_, n) in rest {
        all = all.joined(span_named(names, spans, &n.text));
    }
    all
}

/// Those of an and-rule with these parameters and this image.
fn and_span(
    alloc: Global,
    names: &Names<'_>,
    spans: &[Span],
    pars: &Option<Pars>,
    image: &Template,
) -> Result<Span, Memory>
    ensures { IfOk result (λ s. s ≡ span.text_span (span_given (par_spans (par_span names.now spans.now) (pars_of pars.now))) image.now) }
{
    let given = spans_of(alloc, names, spans, pars)?;
    text_span(&given, image)
}

/// Those of the rule that the item declares, from those of the rules that it names.
fn item_span(alloc: Global, names: &Names<'_>, spans: &[Span], item: &Item) -> Result<Span, Memory>
    ensures { IfOk result (λ s. s ≡ spec.item_span names.now spans.now item.now) }
{
    match item {
        Item::Let(_, _, _, _, _) => Ok(Span::one(0)),
        Item::Type(_, _, _, _) => Ok(Span::one(0)),
        Item::Storage(_) => Ok(Span::one(0)),
        Item::Port(_) => Ok(Span::one(0)),
        Item::OrRule(rule) => Ok(or_span(names, spans, &rule.first, rule.rest.as_slice())),
        Item::OpRule(rule) => and_span(alloc, names, spans, &rule.pars, &rule.attrs.image_text),
        Item::ModeRule(rule) => and_span(alloc, names, spans, &rule.pars, &rule.attrs.image_text),
    }
}

/// Sets those of the rule that the item of this number declares.
fn set_span(
    alloc: Global,
    names: &Names<'_>,
    spans: &mut Vec<Span>,
    number: usize,
) -> Result<(), Memory>
    requires { length spans.old.items ≡ length names.now.items }
    ensures { OnOk result (spans.new.items ≡ spec.with_span names.now spans.old.items number) }
{
    match names.items().get(number) {
        None => Ok(()),
        Some(item) => {
            let one = item_span(alloc, names, spans.as_slice(), item)?;
            spans[number] = one;
            Ok(())
        }
    }
}

/// Those of each rule, at the number of the item that declares it.
pub fn spans(alloc: Global, names: &Names<'_>, order: &[usize]) -> Result<Vec<Span>, Memory>
    requires order { IsOrder (graph names.now.items) order.now }
    requires free { IsFreeBelow 9 names.now }
    ensures { IfOk result (λ spans. AreSpans names.now spans.items) }
{
    let mut spans = vec![in alloc; Span::one(0); names.items().len()]?;
    for p in 0..order.len() {
        set_span(alloc, names, &mut spans, order[p])?;
    }
    Ok(spans)
}
