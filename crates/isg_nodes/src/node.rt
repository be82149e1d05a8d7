//! Nodes of written-out actions.

ghost use Rattle.std.specs.Prelude.{◌≡◌};

use nml_tree::{Bin, Un};
use std::marker::Model;

/// Numbers of nodes, in order. The form is this project's own.
#[derive(Drop)]
pub struct Numbers {
    list: Vec<u32>,
}

impl Model for Numbers {
    ghost use Rattle.std.specs.Prelude.{ℕ, List};

    ghost Value = { List ℕ };

    ghost view = { λ x. x.list.items };
}

impl Numbers {
    /// These numbers. It takes no memory.
    pub fn new(list: Vec<u32>) -> Numbers
        ensures { result ≡ list.items }
    {
        Numbers { list }
    }

    /// The numbers, with no copy. It takes no memory.
    pub fn as_slice(&self) -> &[u32]
        ensures { result.now ≡ self.now }
    {
        self.list.as_slice()
    }
}

/// An expression or a statement of an action, written out; an operand is the number of an older node.
///
/// `Cell` has its storage and its index, `SetCell` besides the value, `SetTrn` the transitory and the value. A storage of one cell has the
/// index `Number(0)`. `Choose` is the `if` expression, `When` the `if` statement with its condition and two lists of statements. The form is
/// this project's own.
#[derive(Drop)]
pub enum Node {
    Number(i128),
    Field(u32),
    Cell(u32, u32),
    Trn(u32),
    Inp,
    Unary(Un, u32),
    Binary(Bin, u32, u32),
    Choose(u32, u32, u32),
    SetCell(u32, u32, u32),
    SetTrn(u32, u32),
    Put(u32),
    Halt(u32),
    When(u32, Numbers, Numbers),
}
