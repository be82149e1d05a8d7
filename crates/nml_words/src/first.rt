//! The first rule whose images are of several widths.

ghost use Rattle.std.specs.Prelude.{◌≡◌, ℕ, List, IfOk, MatchOption};
ghost use Rattle.nml_names.specs.Below.{graph};
ghost use Rattle.graphs.specs.Graphs.{IsOrder};
ghost use Rattle.nml_tree.specs.Refused.{IsFirstRule, IsFreeBelow};
ghost use Rattle.nml_tree.specs.Table.{table};
ghost use Rattle.nml_tree.specs.Valid.{WordFault};
ghost use Rattle.nml_words.specs.Words as spec;

use crate::pars::span_at;
use crate::rules::spans;
use crate::span::Span;
use nk_base::{Memory, Text};
use nml_known::Names;
use nml_names::declared_name;
use nml_tree::Item;
use std::alloc::Global;

/// Whether it is called `instruction`.
fn is_root(name: &Text) -> bool
    ensures { result ≡ spec.is_root name.now }
{
    name.as_bytes() == b"instruction".as_slice()
}

/// Whether the item is an or-rule of several widths, or `instruction` without one of 8 to 64.
fn is_wrong(item: &Item, s: Span) -> bool
    ensures { result ≡ spec.is_wrong item.now s }
{
    match item {
        Item::Let(_, _, _, _, _) => false,
        Item::Type(_, _, _, _) => false,
        Item::Storage(_) => false,
        Item::Port(_) => false,
        Item::OrRule(rule) => s.differs() || (is_root(&rule.name.text) && s.is_outside()),
        Item::OpRule(rule) => is_root(&rule.name.text) && (s.differs() || s.is_outside()),
        Item::ModeRule(rule) => is_root(&rule.name.text) && (s.differs() || s.is_outside()),
    }
}

/// Whether it is this number.
fn is_number(k: usize, number: Option<usize>) -> bool
    ensures { result ≡ spec.is_number k number }
{
    match number {
        None => false,
        Some(n) => n == k,
    }
}

/// Whether the item of this number is the first that declares its name, and wrong.
fn is_fault(names: &Names<'_>, spans: &[Span], number: usize, item: &Item) -> bool
    ensures { result ≡ spec.is_fault names.now spans.now number item.now }
{
    is_number(number, names.number(&declared_name(item).text))
        && is_wrong(item, span_at(spans, number))
}

/// The name of the first rule in the text that is an or-rule with images of several widths, or that is called `instruction` and has
/// images of several widths, of fewer than 8 bits or of more than 64; `None` where there is none.
///
/// The order has each rule behind those that it names. The rule is this project's own. The one error is want of memory, which is also
/// answered where an image has 2^64 bits or more: no memory holds it.
pub fn first_word_fault(
    alloc: Global,
    names: &Names<'_>,
    order: &[usize],
) -> Result<Option<Text>, Memory>
    requires order { IsOrder (graph names.now.items) order.now }
    requires free { IsFreeBelow 9 names.now }
    ensures { IfOk result (λ found. MatchOption found ((rule : List ℕ) → WordFault (table names.now) rule → ⊥) (IsFirstRule names.now (WordFault (table names.now)))) }
{
    let items = names.items();
    let widths = spans(alloc, names, order)?;
    for number in 0..items.len() {
        let item = &items[number];
        if is_fault(names, widths.as_slice(), number, item) {
            return Ok(Some(declared_name(item).text.clone()?));
        }
    }
    Ok(None)
}
