//! What a statement begins with, where that is a keyword or a mark.
ghost use Rattle.std.specs.Prelude.{◌≡◌};
ghost use Rattle.std.specs.Option.{option_map};
ghost use Rattle.readings.specs.Reading.{looked_up};
ghost use Rattle.c_grammar.specs.ReadingStatements as spec;
ghost use Rattle.c_statement.specs.Seen.{leaf_of, node_of, node_starts};

/// A statement that has no other within it.
#[derive(Clone, Copy)]
pub enum Leaf {
    /// `;`.
    Ending,
    /// `break`.
    Breaking,
    /// `continue`.
    Continuing,
    /// `return`.
    Returning,
}

/// A statement that may have others within it.
#[derive(Clone, Copy)]
pub enum Node {
    /// A block.
    Bracing,
    /// `if`.
    Branching,
    /// `while`.
    Looping,
    /// `do`.
    Repeating,
    /// `for`.
    Counting,
}

/// The statement that this keyword or mark begins, where it has no other within it.
pub fn leaf_begun(text: &[u8]) -> Option<Leaf>
    ensures { option_map leaf_of result ≡ looked_up (spec.statement_starts 0) text.now }
{
    if text == b";".as_slice() {
        Some(Leaf::Ending)
    } else if text == b"break".as_slice() {
        Some(Leaf::Breaking)
    } else if text == b"continue".as_slice() {
        Some(Leaf::Continuing)
    } else if text == b"return".as_slice() {
        Some(Leaf::Returning)
    } else {
        None
    }
}

/// The statement that this keyword or mark begins, where it may have others within it.
pub fn node_begun(text: &[u8]) -> Option<Node>
    ensures { option_map node_of result ≡ looked_up node_starts text.now }
{
    if text == b"{".as_slice() {
        Some(Node::Bracing)
    } else if text == b"if".as_slice() {
        Some(Node::Branching)
    } else if text == b"while".as_slice() {
        Some(Node::Looping)
    } else if text == b"do".as_slice() {
        Some(Node::Repeating)
    } else if text == b"for".as_slice() {
        Some(Node::Counting)
    } else {
        None
    }
}
