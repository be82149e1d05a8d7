//! The first rule that reaches itself.
ghost use Rattle.std.specs.Prelude.{◌≡◌, ◌<◌, ℕ, List, length, slice_get, Some, MatchOption, IfOk};
ghost use Rattle.nml_tree.specs.declared.tree.Item.{Item};
ghost use Rattle.nml_tree.specs.Table.{table};
ghost use Rattle.nml_tree.specs.Uses.{declares};
ghost use Rattle.graphs.specs.Graphs.{InRange, IsOrder, LeastOf, Reaches};
ghost use Rattle.nml_names.specs.Naming.{AreDeclared};
ghost use Rattle.nml_names.specs.Below as spec;
ghost use Rattle.nml_tree.specs.Reach.{CycleFault};
ghost use Rattle.nml_tree.specs.Refused.{IsFirstRule};

use crate::below::graph;
use crate::names::{Declaration, declarations, declared_name};
use graphs::{first_loop, order_of};
use indexmap::IndexMap;
use nk_base::{Memory, Text};
use nml_tree::Desc;
use std::alloc::Global;

/// The number of the first item that is a rule and reaches itself.
fn cycle_number(alloc: Global, d: &Desc) -> Result<Option<usize>, Memory>
    ensures { IfOk result (λ found. LeastOf (λ n. Reaches (spec.graph d.now.items) n n) found) }
{
    let items = d.items.as_slice();
    let names = declarations(alloc, items)?;
    let rows = graph(alloc, &names, items)?;
    first_loop(alloc, &rows)
}

/// The name that the item of this number declares.
fn name_of(d: &Desc, number: usize) -> Result<Text, Memory>
    requires { number < length d.now.items }
    ensures { IfOk result (λ name. (i : Item) × (slice_get d.now.items number ≡ Some i) × (name ≡ (declares i).text)) }
{
    let item = &d.items.as_slice()[number];
    Ok(declared_name(item).text.clone()?)
}

/// The name of the first rule in the text that reaches itself through alternatives or parameters; `None` where none does.
///
/// The rule is this project's own. The one error is want of memory.
pub fn first_cycle(alloc: Global, d: &Desc) -> Result<Option<Text>, Memory>
    ensures { IfOk result (λ found. MatchOption found ((rule : List ℕ) → CycleFault (table d.now) rule → ⊥) (IsFirstRule d.now (CycleFault (table d.now)))) }
{
    match cycle_number(alloc, d)? {
        None => Ok(None),
        Some(number) => Ok(Some(name_of(d, number)?)),
    }
}

/// The numbers of all items, each behind those that it names as alternatives or parts; `None` exactly where a rule reaches itself.
///
/// The map has the names that the items declare. The rule is this project's own. The one error is want of memory.
pub fn rule_order(
    alloc: Global,
    names: &IndexMap<Text, Declaration>,
    d: &Desc,
) -> Result<Option<Vec<usize>>, Memory>
    requires { AreDeclared names.now.entries d.now.items }
    ensures { IfOk result (λ found. MatchOption found ((rule : List ℕ) × CycleFault (table d.now) rule) (λ order. IsOrder (spec.graph d.now.items) order.items)) }
{
    let rows = graph(alloc, names, d.items.as_slice())?;
    order_of(alloc, &rows)
}
