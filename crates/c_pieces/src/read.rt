//! The nodes of a program, by their sort.

ghost use Rattle.std.specs.Prelude.{◌≡◌, ◌<◌, length, slice_get, Some};
ghost use Rattle.c_flat.specs.Written.{Falls, IsBelow, AreBelow, one, written};
ghost use Rattle.c_flat.specs.Sorts.{term_at, terms_at, term_over, terms_over, term_parts, terms_parts};

use c_flat::{Node, TermNode, term_node, terms_node};

/// The node of this number, where there is one.
fn found(nodes: &[Node], e: usize) -> Option<Node>
    ensures { result ≡ slice_get nodes.now e }
{
    nodes.get(e).copied()
}

/// The node of this number; where there is none, nothing to do. It takes no memory.
pub fn node_of(nodes: &[Node], e: usize) -> Node
    requires falls { Falls nodes.now }
    requires within { e < length nodes.now }
    ensures is { one result (written nodes.now) ≡ written nodes.now e }
    ensures below { IsBelow result e }
{
    match found(nodes, e) {
        None => Node::Skip,
        Some(node) => node,
    }
}

/// The node of an expression, whose parts have lower numbers. It takes no memory.
pub fn term_of(nodes: &[Node], e: usize) -> TermNode
    requires falls { Falls nodes.now }
    requires within { e < length nodes.now }
    ensures is { term_over result (written nodes.now) ≡ term_at nodes.now e }
    ensures below { AreBelow (term_parts result) e }
{
    term_node(node_of(nodes, e))
}

/// The node of arguments, whose parts have lower numbers. It takes no memory.
pub fn terms_of(nodes: &[Node], e: usize) -> Option<(usize, usize)>
    requires falls { Falls nodes.now }
    requires within { e < length nodes.now }
    ensures is { terms_over result (written nodes.now) ≡ terms_at nodes.now e }
    ensures below { AreBelow (terms_parts result) e }
{
    terms_node(node_of(nodes, e))
}
