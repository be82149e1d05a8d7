//! The code of a program.

ghost use Rattle.std.specs.Prelude.{◌≡◌, slice_get, option_map};
ghost use Rattle.c_flat.specs.Written.{Falls, one, written};
ghost use Rattle.c_flat.specs.Sorts.{term_at, terms_at, command_at, term_over, terms_over, command_over};

use c_flat::{CommandNode, Node, TermNode, command_node, term_node, terms_node};

/// The node of a function's body, and the first of its cells.
///
/// The form is this project's own.
#[derive(Clone, Copy)]
pub struct Entry {
    pub body: usize,
    pub base: usize,
}

/// The code of a program with numbers of `bits` bits: the nodes of the bodies of its functions, and the functions other
/// than `main`, in the text's order.
///
/// The form is this project's own.
#[derive(Drop)]
pub struct Code {
    pub bits: u32,
    pub nodes: Vec<Node>,
    pub functions: Vec<Entry>,
}

impl Code {
    /// The node of this number, where there is one.
    fn found(&self, number: usize) -> Option<Node>
        ensures { result ≡ slice_get self.now.nodes.items number }
    {
        self.nodes.get(number).copied()
    }

    /// The node of this number; where there is none, nothing to do.
    fn node(&self, number: usize) -> Node
        requires { Falls self.now.nodes.items }
        ensures { one result (written self.now.nodes.items) ≡ written self.now.nodes.items number }
    {
        match self.found(number) {
            None => Node::Skip,
            Some(found) => found,
        }
    }

    /// The node of an expression. It takes no memory.
    pub fn term(&self, number: usize) -> TermNode
        requires { Falls self.now.nodes.items }
        ensures { term_over result (written self.now.nodes.items) ≡ term_at self.now.nodes.items number }
    {
        term_node(self.node(number))
    }

    /// The node of arguments. It takes no memory.
    pub fn terms(&self, number: usize) -> Option<(usize, usize)>
        requires { Falls self.now.nodes.items }
        ensures { terms_over result (written self.now.nodes.items) ≡ terms_at self.now.nodes.items number }
    {
        terms_node(self.node(number))
    }

    /// The node of a command. It takes no memory.
    pub fn command(&self, number: usize) -> CommandNode
        requires { Falls self.now.nodes.items }
        ensures { command_over result (written self.now.nodes.items) ≡ command_at self.now.nodes.items number }
    {
        command_node(self.node(number))
    }

    /// What stands for the function of this number. It takes no memory.
    pub fn function(&self, number: usize) -> Option<Entry>
        ensures { result ≡ slice_get self.now.functions.items number }
    {
        self.functions.get(number).copied()
    }
}
