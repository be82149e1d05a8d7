//! The cells that an action names as written.

ghost use Rattle.std.specs.Prelude.{◌≡◌, ◌<◌, IfOk, OnOk, length, map};
ghost use Rattle.isg_nodes.specs.Written.{AllBelow, Falls, action, statement};
ghost use Rattle.isg_places.specs.Places.{act_writes};
ghost use Rattle.isg_places.specs.Spots.{Adds, AreSpots, named};
ghost use Rattle.nml_tree.specs.Act as act;

use crate::place::{Spot, Spots};
use crate::spot::add_spot;
use isg_nodes::{Node, node_at};
use nk_base::Memory;
use std::alloc::Global;

/// The cells of storages that an action names as written, in the order in which it is written out: both sides of each `if`, and one entry
/// for each time that it names one.
///
/// The one error is want of memory. The rule is this project's own.
pub fn writes_of(alloc: Global, nodes: &[Node], effect: &[u32]) -> Result<Spots, Memory>
    requires falls { Falls nodes.now }
    requires within { AllBelow effect.now (length nodes.now) }
    ensures spots { IfOk result (λ s. AreSpots nodes.now s) }
    ensures names { IfOk result (λ s. map (named nodes.now) s ≡ act_writes (action nodes.now effect.now)) }
{
    let mut spots = Vec::new(alloc);
    add_writes(nodes, effect, &mut spots)?;
    Ok(Spots::new(spots))
}

/// Adds those of statements in order.
#[cycle(writes)]
fn add_writes(nodes: &[Node], effect: &[u32], spots: &mut Vec<Spot>) -> Result<(), Memory>
    requires falls { Falls nodes.now }
    requires within { AllBelow effect.now (length nodes.now) }
    ensures { OnOk result (Adds nodes.now spots.old.items spots.new.items (act_writes (action nodes.now effect.now))) }
{
    for m in effect {
        add_statement_writes(nodes, *m, spots)?;
    }
    Ok(())
}

/// Adds those of the statement of this node.
#[cycle(writes)]
fn add_statement_writes(nodes: &[Node], n: u32, spots: &mut Vec<Spot>) -> Result<(), Memory>
    requires falls { Falls nodes.now }
    requires within { n < length nodes.now }
    ensures { OnOk result (Adds nodes.now spots.old.items spots.new.items (act_writes (statement nodes.now n act.Done))) }
{
    match node_at(nodes, n) {
        Node::SetCell(k, i, _) => add_spot(nodes, *k, *i, spots),
        Node::When(_, xs, ys) => {
            add_writes(nodes, xs.as_slice(), spots)?;
            add_writes(nodes, ys.as_slice(), spots)
        }
        Node::Number(_) => Ok(()),
        Node::Field(_) => Ok(()),
        Node::Cell(_, _) => Ok(()),
        Node::Trn(_) => Ok(()),
        Node::Inp => Ok(()),
        Node::Unary(_, _) => Ok(()),
        Node::Binary(_, _, _) => Ok(()),
        Node::Choose(_, _, _) => Ok(()),
        Node::SetTrn(_, _) => Ok(()),
        Node::Put(_) => Ok(()),
        Node::Halt(_) => Ok(()),
    }
}
