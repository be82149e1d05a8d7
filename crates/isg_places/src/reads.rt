//! The cells that an action names as read.

ghost use Rattle.std.specs.Prelude.{◌≡◌, ◌<◌, IfOk, OnOk, length, map};
ghost use Rattle.isg_nodes.specs.Written.{AllBelow, Falls, action, statement, term};
ghost use Rattle.isg_places.specs.Places.{act_reads, reads_in};
ghost use Rattle.isg_places.specs.Spots.{Adds, AreSpots, named};
ghost use Rattle.nml_tree.specs.Act as act;

use crate::place::{Spot, Spots};
use crate::spot::add_spot;
use isg_nodes::{Node, node_at};
use nk_base::Memory;
use std::alloc::Global;

/// The cells of storages that an action names as read, in the order in which it is written out: both sides of each `if`, the index of a
/// place that is written, and a cell before those that its own index names; one entry for each time that it names one.
///
/// The one error is want of memory. The rule is this project's own.
pub fn reads_of(alloc: Global, nodes: &[Node], effect: &[u32]) -> Result<Spots, Memory>
    requires falls { Falls nodes.now }
    requires within { AllBelow effect.now (length nodes.now) }
    ensures spots { IfOk result (λ s. AreSpots nodes.now s) }
    ensures names { IfOk result (λ s. map (named nodes.now) s ≡ act_reads (action nodes.now effect.now)) }
{
    let mut spots = Vec::new(alloc);
    add_reads(nodes, effect, &mut spots)?;
    Ok(Spots::new(spots))
}

/// Adds those of statements in order.
#[cycle(reads)]
fn add_reads(nodes: &[Node], effect: &[u32], spots: &mut Vec<Spot>) -> Result<(), Memory>
    requires falls { Falls nodes.now }
    requires within { AllBelow effect.now (length nodes.now) }
    ensures { OnOk result (Adds nodes.now spots.old.items spots.new.items (act_reads (action nodes.now effect.now))) }
{
    for m in effect {
        add_statement_reads(nodes, *m, spots)?;
    }
    Ok(())
}

/// Adds those of the statement of this node.
#[cycle(reads)]
fn add_statement_reads(nodes: &[Node], n: u32, spots: &mut Vec<Spot>) -> Result<(), Memory>
    requires falls { Falls nodes.now }
    requires within { n < length nodes.now }
    ensures { OnOk result (Adds nodes.now spots.old.items spots.new.items (act_reads (statement nodes.now n act.Done))) }
{
    match node_at(nodes, n) {
        Node::SetCell(_, i, e) => {
            add_term_reads(nodes, *i, spots)?;
            add_term_reads(nodes, *e, spots)
        }
        Node::SetTrn(_, e) => add_term_reads(nodes, *e, spots),
        Node::Put(e) => add_term_reads(nodes, *e, spots),
        Node::Halt(e) => add_term_reads(nodes, *e, spots),
        Node::When(c, xs, ys) => {
            add_term_reads(nodes, *c, spots)?;
            add_reads(nodes, xs.as_slice(), spots)?;
            add_reads(nodes, ys.as_slice(), spots)
        }
        Node::Number(_) => Ok(()),
        Node::Field(_) => Ok(()),
        Node::Cell(_, _) => Ok(()),
        Node::Trn(_) => Ok(()),
        Node::Inp => Ok(()),
        Node::Unary(_, _) => Ok(()),
        Node::Binary(_, _, _) => Ok(()),
        Node::Choose(_, _, _) => Ok(()),
    }
}

/// Adds those of the expression of this node.
fn add_term_reads(nodes: &[Node], n: u32, spots: &mut Vec<Spot>) -> Result<(), Memory>
    requires falls { Falls nodes.now }
    requires within { n < length nodes.now }
    ensures { OnOk result (Adds nodes.now spots.old.items spots.new.items (reads_in (term nodes.now n))) }
{
    match node_at(nodes, n) {
        Node::Cell(k, i) => {
            add_spot(nodes, *k, *i, spots)?;
            add_term_reads(nodes, *i, spots)
        }
        Node::Unary(_, x) => add_term_reads(nodes, *x, spots),
        Node::Binary(_, x, y) => {
            add_term_reads(nodes, *x, spots)?;
            add_term_reads(nodes, *y, spots)
        }
        Node::Choose(c, x, y) => {
            add_term_reads(nodes, *c, spots)?;
            add_term_reads(nodes, *x, spots)?;
            add_term_reads(nodes, *y, spots)
        }
        Node::Number(_) => Ok(()),
        Node::Field(_) => Ok(()),
        Node::Trn(_) => Ok(()),
        Node::Inp => Ok(()),
        Node::SetCell(_, _, _) => Ok(()),
        Node::SetTrn(_, _) => Ok(()),
        Node::Put(_) => Ok(()),
        Node::Halt(_) => Ok(()),
        Node::When(_, _, _) => Ok(()),
    }
}
