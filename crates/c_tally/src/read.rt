//! The nodes of a program, by their sort.

ghost use Rattle.std.specs.Prelude.{◌≡◌, ◌<◌, length, slice_get, Some};
ghost use Rattle.c_flat.specs.Written.{Falls, IsBelow, AreBelow, one, written};
ghost use Rattle.c_flat.specs.Sorts.{term_at, terms_at, command_at, term_over, terms_over, command_over, term_parts, terms_parts, command_parts};

use c_flat::{CommandNode, Node, TermNode, command_node, term_node, terms_node};

/// The node of this number, where there is one.
fn found(nodes: &[Node], k: usize) -> Option<Node>
    ensures { result ≡ slice_get nodes.now k }
{
    nodes.get(k).copied()
}

/// The node of this number; where there is none, nothing to do.
fn node_of(nodes: &[Node], k: usize) -> Node
    requires falls { Falls nodes.now }
    requires within { k < length nodes.now }
    ensures is { one result (written nodes.now) ≡ written nodes.now k }
    ensures below { IsBelow result k }
{
    match found(nodes, k) {
        None => Node::Skip,
        Some(node) => node,
    }
}

/// The node of an expression, whose parts have lower numbers.
pub(crate) fn term_of(nodes: &[Node], e: usize) -> TermNode
    requires falls { Falls nodes.now }
    requires within { e < length nodes.now }
    ensures is { term_over result (written nodes.now) ≡ term_at nodes.now e }
    ensures below { AreBelow (term_parts result) e }
{
    term_node(node_of(nodes, e))
}

/// The node of arguments, whose parts have lower numbers.
pub(crate) fn terms_of(nodes: &[Node], xs: usize) -> Option<(usize, usize)>
    requires falls { Falls nodes.now }
    requires within { xs < length nodes.now }
    ensures is { terms_over result (written nodes.now) ≡ terms_at nodes.now xs }
    ensures below { AreBelow (terms_parts result) xs }
{
    terms_node(node_of(nodes, xs))
}

/// The node of a command, whose parts have lower numbers.
pub(crate) fn command_of(nodes: &[Node], c: usize) -> CommandNode
    requires falls { Falls nodes.now }
    requires within { c < length nodes.now }
    ensures is { command_over result (written nodes.now) ≡ command_at nodes.now c }
    ensures below { AreBelow (command_parts result) c }
{
    command_node(node_of(nodes, c))
}
