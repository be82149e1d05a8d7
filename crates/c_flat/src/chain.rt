//! Arguments, and commands, one behind the other.

ghost use Rattle.std.specs.Prelude.{◌≡◌, ◌<◌, ℕ, length, map, IfOk};
ghost use Rattle.c_flat.specs.Written.{Written, Falls, AreBelow, IsBelow, Grew, one, written};
ghost use Rattle.c_flat.specs.Listing.{end_of, link, ahead};

use crate::node::{Node, push_node};
use nk_base::Memory;

/// What stands in a list: arguments, or commands.
///
/// The names are this project's own.
#[derive(Clone, Copy)]
pub enum Chain {
    Arguments,
    Commands,
}

/// The end of a list.
fn end_node(kind: Chain) -> Node
    ensures is { (f : ℕ → Written) → one result f ≡ end_of kind }
    ensures below { (n : ℕ) → IsBelow result n }
{
    match kind {
        Chain::Arguments => Node::NoMore,
        Chain::Commands => Node::Skip,
    }
}

/// One thing, and the list behind it.
fn link_node(kind: Chain, first: usize, rest: usize) -> Node
    ensures is { (f : ℕ → Written) → one result f ≡ link kind (f first) (f rest) }
    ensures below { (n : ℕ) → first < n → rest < n → IsBelow result n }
{
    match kind {
        Chain::Arguments => Node::More(first, rest),
        Chain::Commands => Node::Seq(first, rest),
    }
}

/// Puts the nodes of a list behind the others, where the nodes of its things have these numbers.
///
/// The one error is want of memory.
pub fn push_list(kind: Chain, numbers: Vec<usize>, nodes: &mut Vec<Node>) -> Result<usize, Memory>
    requires falls { Falls nodes.old.items }
    requires below { AreBelow numbers.items (length nodes.old.items) }
    ensures { IfOk result (λ n. Grew nodes.old.items nodes.new.items (ahead kind (map (written nodes.old.items) numbers.items) (end_of kind)) n) }
{
    let mut left = numbers;
    let mut rest = push_node(nodes, end_node(kind))?;
    while let Some(first) = left.pop() {
        rest = push_node(nodes, link_node(kind, first, rest))?;
    }
    Ok(rest)
}
