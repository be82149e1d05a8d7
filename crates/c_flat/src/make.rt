//! The node of an expression, over the nodes of its parts.

ghost use Rattle.std.specs.Prelude.{◌≡◌, ◌<◌, ℕ};
ghost use Rattle.c_tree.specs.Program.{Term, Terms};
ghost use Rattle.c_tree.specs.Resolve.{scalar, element, called};
ghost use Rattle.c_flat.specs.Written.{Written, OfTerm, OfTerms, one, IsBelow};

use crate::node::Node;
use c_tree::Meaning;

/// A variable's value, by what its name means.
pub fn scalar_node(meaning: Option<Meaning>) -> Node
    ensures is { (f : ℕ → Written) → one result f ≡ OfTerm (scalar meaning) }
    ensures below { (n : ℕ) → IsBelow result n }
{
    match meaning {
        None => Node::Number(0),
        Some(found) => match found {
            Meaning::OneCell(place) => Node::Scalar(place),
            Meaning::Cells(_, _) => Node::Number(0),
            Meaning::Callee(_, _, _) => Node::Number(0),
            Meaning::Main => Node::Number(0),
            Meaning::In => Node::Number(0),
            Meaning::Out => Node::Number(0),
        },
    }
}

/// An array's element, by what its name means.
pub fn element_node(meaning: Option<Meaning>, index: usize) -> Node
    ensures is { (f : ℕ → Written) (t : Term) → f index ≡ OfTerm t → one result f ≡ OfTerm (element meaning t) }
    ensures below { (n : ℕ) → index < n → IsBelow result n }
{
    match meaning {
        None => Node::Number(0),
        Some(found) => match found {
            Meaning::Cells(place, length) => Node::Element(place, length, index),
            Meaning::OneCell(_) => Node::Number(0),
            Meaning::Callee(_, _, _) => Node::Number(0),
            Meaning::Main => Node::Number(0),
            Meaning::In => Node::Number(0),
            Meaning::Out => Node::Number(0),
        },
    }
}

/// A call as a value, by what its name means.
pub fn called_node(meaning: Option<Meaning>, arguments: usize) -> Node
    ensures is { (f : ℕ → Written) (ts : Terms) → f arguments ≡ OfTerms ts → one result f ≡ OfTerm (called meaning ts) }
    ensures below { (n : ℕ) → arguments < n → IsBelow result n }
{
    match meaning {
        None => Node::Number(0),
        Some(found) => match found {
            Meaning::Callee(number, _, _) => Node::Call(number, arguments),
            Meaning::In => Node::Input,
            Meaning::OneCell(_) => Node::Number(0),
            Meaning::Cells(_, _) => Node::Number(0),
            Meaning::Main => Node::Number(0),
            Meaning::Out => Node::Number(0),
        },
    }
}
