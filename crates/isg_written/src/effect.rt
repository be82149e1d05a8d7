//! The action of an instruction, written out as nodes.

ghost use Rattle.std.specs.Prelude.{◌≡◌, IfOk, codes, length};
ghost use Rattle.isg_nodes.specs.Grow.{Extends};
ghost use Rattle.isg_nodes.specs.Written as graph;
ghost use Rattle.isg_nodes.specs.Written.{AllBelow, Falls};
ghost use Rattle.nml_tree.specs.Derivation as derivation;
ghost use Rattle.nml_tree.specs.Derivation.{Derivation};
ghost use Rattle.nml_tree.specs.Refused.{IsTyped};
ghost use Rattle.nml_tree.specs.Table.{table};
ghost use Rattle.nml_tree.specs.Valid.{IsRoot};
ghost use Rattle.nml_tree.specs.Written as written;

use crate::numbered::Numbered;
use crate::statement::action;
use indexmap::IndexMap;
use isg_nodes::{Key, Node, Numbers};
use nk_base::{Memory, Text};
use std::alloc::Global;

/// The statements of the action of the instructions with these picks, as nodes: the outermost statements in order.
///
/// A part's action stands in its place, and so does a mode's value, also where it is assigned; a field is its number in the instruction.
/// Nodes are added, and equal ones are shared. What is answered for picks that write no derivation is left open. The one error is want of
/// memory, also that for more than 2^32 nodes. That actions are written out so is this project's own rule.
pub fn effect_of(
    alloc: Global,
    numbered: &Numbered<'_>,
    picks: &[u32],
    nodes: &mut Vec<Node>,
    known: &mut IndexMap<Key, u32>,
) -> Result<Numbers, Memory>
    requires typed { IsTyped numbered.now }
    requires falls { Falls nodes.old.items }
    ensures falls { Falls nodes.new.items }
    ensures extends { Extends nodes.old.items nodes.new.items }
    ensures below { IfOk result (λ ns. AllBelow ns (length nodes.new.items)) }
    ensures written { IfOk result (λ ns. (x : Derivation) → IsRoot (table numbered.now) x → derivation.picks x ≡ picks.now → graph.action nodes.new.items ns ≡ written.action (table numbered.now) x) }
{
    let root = root_name(alloc)?;
    let limit = numbered.names().items().len();
    let mut list = Vec::new(alloc);
    action(
        alloc, numbered, &root, picks, 0, limit, &mut list, nodes, known,
    )?;
    Ok(Numbers::new(list))
}

/// The name of the rule that all begins with.
fn root_name(alloc: Global) -> Result<Text, Memory>
    ensures { IfOk result (λ t. t ≡ codes "instruction") }
{
    Text::from_bytes(alloc, b"instruction".as_slice())
}
