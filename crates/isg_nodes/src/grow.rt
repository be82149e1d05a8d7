//! Nodes are added; one that there is already is shared.

ghost use Rattle.std.specs.Prelude.{◌≡◌, ◌<◌, length, slice_get, Some, IfOk, IfSome, IsTrue};
ghost use Rattle.isg_nodes.specs.Written.{Falls, IsBelow};
ghost use Rattle.isg_nodes.specs.Grow.{Extends, Grown};
ghost use Rattle.isg_nodes.specs.Keys.{node_of};

use crate::key::{Key, key_of};
use crate::node::Node;
use indexmap::IndexMap;
use nk_base::Memory;

/// The number of a node that writes out this one over the nodes so far: of an equal one that is known by its key, or else of a new one.
///
/// The one error is want of memory, also that for more than 2^32 nodes. That equal nodes are shared is this project's own rule.
#[tactic(auto, using(crate::proofs::Growing::extends_refl))]
pub fn add(nodes: &mut Vec<Node>, known: &mut IndexMap<Key, u32>, x: Node) -> Result<u32, Memory>
    requires falls { Falls nodes.old.items }
    requires below { IsBelow x (length nodes.old.items) }
    ensures grown { IfOk result (λ n. Grown nodes.old.items nodes.new.items x n) }
    ensures falls { Falls nodes.new.items }
    ensures extends { Extends nodes.old.items nodes.new.items }
{
    let Some(key) = key_of(&x) else {
        return push(nodes, x);
    };
    if let Some(n) = find(nodes, known, key) {
        return Ok(n);
    }
    let n = push(nodes, x)?;
    known.insert(key, n)?;
    Ok(n)
}

/// The number of a new node.
#[tactic(auto, using(crate::proofs::Growing::grown_push, crate::proofs::Growing::extends_refl))]
fn push(nodes: &mut Vec<Node>, x: Node) -> Result<u32, Memory>
    requires falls { Falls nodes.old.items }
    requires below { IsBelow x (length nodes.old.items) }
    ensures grown { IfOk result (λ n. Grown nodes.old.items nodes.new.items x n) }
    ensures falls { Falls nodes.new.items }
    ensures extends { Extends nodes.old.items nodes.new.items }
{
    let Ok(n) = u32::try_from(nodes.len()) else {
        return Err(Memory);
    };
    match nodes.push(x) {
        Ok(()) => Ok(n),
        Err(_) => Err(Memory),
    }
}

/// The number of a node with this key.
fn find(nodes: &[Node], known: &IndexMap<Key, u32>, wanted: Key) -> Option<u32>
    ensures { IfSome result (λ n. slice_get nodes.now n ≡ Some (node_of wanted)) }
{
    let n = *known.get(&wanted)?;
    let found = key_of(nodes.get(n as usize)?)?;
    if found == wanted { Some(n) } else { None }
}
