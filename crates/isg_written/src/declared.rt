//! A declared name, written out.

ghost use Rattle.std.specs.Prelude.{◌≡◌, IfOk, length};
ghost use Rattle.isg_nodes.specs.Written.{Falls};
ghost use Rattle.isg_written.specs.Found.{Grows, IsCell, IsIndexWithin, Sources};
ghost use Rattle.nml_tree.specs.Table.{table};

use crate::found::{Found, put};
use crate::numbered::Numbered;
use indexmap::IndexMap;
use isg_nodes::{Key, Node, add};
use nk_base::{Memory, Text};
use nml_known::Known;

/// A declared name with this index.
pub fn declared_node(
    numbered: &Numbered<'_>,
    name: &Text,
    index: Option<u32>,
    nodes: &mut Vec<Node>,
    known: &mut IndexMap<Key, u32>,
) -> Result<Found, Memory>
    requires falls { Falls nodes.old.items }
    requires within { IsIndexWithin index (length nodes.old.items) }
    ensures grows { Grows nodes.old.items nodes.new.items }
    ensures found { IfOk result (λ f. Sources (table numbered.now) nodes.old.items nodes.new.items f name.now index) }
{
    match numbered.names().declared(name) {
        None => put(nodes, known, Node::Number(0)),
        Some(Known::Constant(z)) => put(nodes, known, Node::Number(z)),
        Some(Known::TypeName(_)) => put(nodes, known, Node::Number(0)),
        Some(Known::Storage(_, _)) => cell(numbered.number(name), index, nodes, known),
        Some(Known::Trn(_)) => put(nodes, known, Node::Trn(numbered.number(name))),
        Some(Known::Inp(_)) => put(nodes, known, Node::Inp),
        Some(Known::Out(_)) => Ok(Found::Out),
        Some(Known::Or(_)) => put(nodes, known, Node::Number(0)),
        Some(Known::And(_)) => put(nodes, known, Node::Number(0)),
    }
}

/// The cell of this index in the storage.
fn cell(
    storage: u32,
    index: Option<u32>,
    nodes: &mut Vec<Node>,
    known: &mut IndexMap<Key, u32>,
) -> Result<Found, Memory>
    requires falls { Falls nodes.old.items }
    requires within { IsIndexWithin index (length nodes.old.items) }
    ensures grows { Grows nodes.old.items nodes.new.items }
    ensures found { IfOk result (λ f. IsCell nodes.old.items nodes.new.items f storage index) }
{
    match index {
        None => {
            let i = add(nodes, known, Node::Number(0))?;
            put(nodes, known, Node::Cell(storage, i))
        }
        Some(i) => put(nodes, known, Node::Cell(storage, i)),
    }
}
