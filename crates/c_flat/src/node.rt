ghost use Rattle.std.specs.Prelude.{length, IfOk};
ghost use Rattle.c_flat.specs.Written.{Falls, IsBelow, Grew, one, written};

use c_tree::Place;
use ir_core::{Arith, Prefix, Rel, Shift};
use nk_base::Memory;

/// A node of an expression, of arguments or of a command. A part is named by its node's number, which is less.
///
/// The form is this project's own.
#[derive(Clone, Copy)]
pub enum Node {
    /// A number.
    Number(u64),
    /// A variable's value.
    Scalar(Place),
    /// An element of an array of this length.
    Element(Place, u64, usize),
    /// `in()`.
    Input,
    /// A call of the function of this number.
    Call(usize, usize),
    Unary(Prefix, usize),
    Shifted(Shift, usize, u64),
    Arithmetic(Arith, usize, usize),
    Compare(Rel, usize, usize),
    Not(usize),
    AndAlso(usize, usize),
    OrElse(usize, usize),
    /// The end of arguments.
    NoMore,
    /// An argument, and those behind it.
    More(usize, usize),
    Skip,
    Seq(usize, usize),
    /// What pays a turn.
    Turn(usize),
    Set(Place, usize),
    Store(Place, u64, usize, usize),
    Change(Place, u64, usize, Arith, usize),
    Print(usize),
    Take,
    Invoke(usize, usize),
    If(usize, usize),
    IfElse(usize, usize, usize),
    While(usize, usize),
    Do(usize, usize),
    /// A `for` without a condition: its step and its body.
    Forever(usize, usize),
    /// A `for`: its condition, its step and its body.
    For(usize, usize, usize),
    Break,
    Continue,
    Return,
    ReturnWith(usize),
}

/// Puts a node behind the others, and answers its number. The one error is want of memory.
pub fn push_node(nodes: &mut Vec<Node>, node: Node) -> Result<usize, Memory>
    requires falls { Falls nodes.old.items }
    requires below { IsBelow node (length nodes.old.items) }
    ensures { IfOk result (λ n. Grew nodes.old.items nodes.new.items (one node (written nodes.old.items)) n) }
{
    let number = nodes.as_slice().len();
    nodes.push(node)?;
    Ok(number)
}
