//! The first rule in whose syntax something touches.

ghost use Rattle.std.specs.Prelude.{◌≡◌, List, ℕ, IfOk, MatchOption};
ghost use Rattle.nml_edges.specs.Passed.{HasAll};
ghost use Rattle.nml_edges.specs.Found as spec;
ghost use Rattle.nml_names.specs.Below.{graph};
ghost use Rattle.graphs.specs.Graphs.{IsOrder};
ghost use Rattle.nml_tree.specs.Refused.{IsFirstRule, IsFreeBelow};
ghost use Rattle.nml_tree.specs.Table.{table};
ghost use Rattle.nml_tree.specs.Valid.{EdgeFault};

use crate::rule::{fact, of_item};
use crate::summary::{Summary, none};
use nk_base::{Memory, Text};
use nml_known::Names;
use nml_names::declared_name;
use nml_tree::Item;
use std::alloc::Global;

/// The summaries of all items' texts, each made of those that stand before it in the order.
fn all_facts(alloc: Global, names: &Names<'_>, order: &[usize]) -> Result<Vec<Summary>, Memory>
    requires order { IsOrder (graph names.now.items) order.now }
    requires free { IsFreeBelow 10 names.now }
    ensures { IfOk result (λ facts. HasAll names.now facts.items) }
{
    let items = names.items();
    let mut facts = vec![in alloc; none(); items.len()]?;
    for p in 0..order.len() {
        let n = order[p];
        if n < items.len() {
            let m = of_item(alloc, names, facts.as_slice(), &items[n])?;
            facts[n] = m;
        }
    }
    Ok(facts)
}

/// Whether the item is an and-rule.
fn is_and(item: &Item) -> bool
    ensures { result ≡ spec.is_and item.now }
{
    match item {
        Item::Let(_, _, _, _, _) => false,
        Item::Type(_, _, _, _) => false,
        Item::Storage(_) => false,
        Item::Port(_) => false,
        Item::OrRule(_) => false,
        Item::OpRule(_) => true,
        Item::ModeRule(_) => true,
    }
}

/// Whether something touches in an and-rule of this summary, or a text of `instruction` is nothing but blanks.
fn is_bad(item: &Item, m: &Summary) -> bool
    ensures { result ≡ spec.is_bad item.now m.now }
{
    let name = &declared_name(item).text;
    is_and(item) && m.nothing.touch
        || name.as_bytes() == b"instruction".as_slice() && m.nothing.nothing
}

/// Whether the number is that of the name.
fn is_number(found: Option<usize>, number: usize) -> bool
    ensures { result ≡ spec.is_number found number }
{
    match found {
        None => false,
        Some(n) => n == number,
    }
}

/// Whether the item of this number is the first that declares its name, and bad.
fn is_fault(names: &Names<'_>, facts: &[Summary], number: usize, item: &Item) -> bool
    ensures { result ≡ spec.is_fault names.now facts.now number item.now }
{
    is_number(names.number(&declared_name(item).text), number)
        && is_bad(item, &fact(facts, Some(number)))
}

/// The name of the first rule in the text in whose flattened syntax something touches, so that a number could not be told from its
/// neighbour, or `instruction`, where a text of it has no token; `None` where there is none.
///
/// In the order each rule stands behind those that it names. Each item is looked at once, whatever its texts. The rule is this project's
/// own. The one error is want of memory.
pub fn first_edge(alloc: Global, names: &Names<'_>, order: &[usize]) -> Result<Option<Text>, Memory>
    requires order { IsOrder (graph names.now.items) order.now }
    requires free { IsFreeBelow 10 names.now }
    ensures { IfOk result (λ found. MatchOption found ((rule : List ℕ) → EdgeFault (table names.now) rule → ⊥) (IsFirstRule names.now (EdgeFault (table names.now)))) }
{
    let facts = all_facts(alloc, names, order)?;
    let items = names.items();
    for number in 0..items.len() {
        let item = &items[number];
        if is_fault(names, facts.as_slice(), number, item) {
            return Ok(Some(declared_name(item).text.clone()?));
        }
    }
    Ok(None)
}
