//! What a machine has in hand, and what waits behind that.

use crate::data::Cell;
use c_tree::Place;
use ir_core::{Arith, Prefix, Rel, Shift};
use nk_outside::Stop;

/// A loop, by the nodes of its parts.
///
/// The form is this project's own.
#[derive(Clone, Copy)]
pub enum Repeat {
    /// The condition and the body.
    While(usize, usize),
    /// The body and the condition.
    Do(usize, usize),
    /// A `for` without a condition: its step and its body.
    Forever(usize, usize),
    /// The condition, the step and the body.
    For(usize, usize, usize),
}

/// What waits for a number.
///
/// The form is this project's own.
#[derive(Clone, Copy)]
pub enum Expects {
    /// The index of an element of an array of this length.
    Element(Place, u64),
    Unary(Prefix),
    Shifted(Shift, u64),
    ArithmeticRight(Arith, usize),
    ArithmeticLeft(Arith, i64),
    CompareRight(Rel, usize),
    CompareLeft(Rel, i64),
    Negate,
    AndRight(usize),
    OrRight(usize),
    AsTruth,
    /// An argument, before the others.
    Argument(usize),
    SetTo(Place),
    StoreIndex(Place, u64, usize),
    StoreAt(Cell),
    ChangeIndex(Place, u64, Arith, usize),
    ChangeAt(Cell, Arith, i64),
    Show,
    /// The value isn't used.
    Forget,
    /// The condition of an `if` without `else`.
    Then(usize),
    Choose(usize, usize),
    /// The condition of a loop that so many tests are left of.
    Tested(Repeat, u128),
    Giving,
}

/// What waits behind what is in hand.
///
/// The form is this project's own.
#[derive(Clone, Copy)]
pub enum Pending {
    Number(Expects),
    /// An argument that is done.
    Passed(i64),
    /// The function whose arguments are made.
    Calling(usize),
    /// The command that follows.
    Behind(usize),
    /// The loop whose body is run.
    Looping(Repeat, u128),
    /// The loop whose step is run.
    Stepping(Repeat, u128),
    /// The loop whose body is run before its first test.
    Starting(Repeat),
    /// A function's body is run, called from the body with these cells and this depth.
    Called(usize, u64),
}

/// What a machine has in hand.
///
/// The form is this project's own.
#[derive(Clone, Copy)]
pub enum Task {
    Eval(usize),
    Arguments(usize),
    Give(i64),
    /// The arguments that are made are passed on.
    Pass,
    Run(usize),
    /// Nothing to do.
    Nothing,
    Again(Repeat, u128),
    On,
    Leave,
    Onward,
    Back(i64),
}

/// What a step of a machine comes to: it goes on, without an output or with one, or it stops.
///
/// The form is this project's own.
#[derive(Clone, Copy)]
pub enum Moved {
    Goes,
    Puts(i64),
    Stops(Stop),
}
