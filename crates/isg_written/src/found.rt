//! What a name or an expression is written out as.

ghost use Rattle.std.specs.Prelude.{◌≡◌, ◌<◌, IfOk, length};
ghost use Rattle.isg_nodes.specs.Written.{Falls, IsBelow, one_term, term};
ghost use Rattle.isg_written.specs.Found.{Grows, IsTerm};

use indexmap::IndexMap;
use isg_nodes::{Key, Node, add};
use nk_base::Memory;

/// The node of this number, or the output, which is a place alone.
#[derive(Clone, Copy)]
pub enum Found {
    At(u32),
    Out,
}

/// The node.
pub fn put(nodes: &mut Vec<Node>, known: &mut IndexMap<Key, u32>, x: Node) -> Result<Found, Memory>
    requires falls { Falls nodes.old.items }
    requires below { IsBelow x (length nodes.old.items) }
    ensures grows { Grows nodes.old.items nodes.new.items }
    ensures found { IfOk result (λ f. IsTerm nodes.new.items f (one_term x (term nodes.old.items))) }
{
    let n = add(nodes, known, x)?;
    Ok(Found::At(n))
}
