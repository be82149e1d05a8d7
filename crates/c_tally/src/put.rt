//! The numbers in the statements of commands.

ghost use Rattle.std.specs.Prelude.{◌≡◌, ◌<◌, ◌≤◌, ◌++◌, map, pos, length, Some, OnOk};
ghost use Rattle.ir_core.specs.Operator.{wrap};
ghost use Rattle.c_flat.specs.Written.{Falls};
ghost use Rattle.c_flat.specs.Sorts.{term_at, command_at};
ghost use Rattle.c_counted.specs.Counted.{numbers, return_numbers, command_numbers};
ghost use Rattle.c_tally.specs.Put.{Put};

use crate::number::{push_arguments, push_both, push_steps, push_term};
use crate::read::command_of;
use c_flat::{CommandNode, Node};
use nk_base::Memory;

/// Puts the numbers of what `return` gives behind the others. The one error is want of memory.
fn push_returned(
    nodes: &[Node],
    in_main: bool,
    e: usize,
    n: u32,
    out: &mut Vec<i64>,
) -> Result<(), Memory>
    requires falls { Falls nodes.now }
    requires within { e < length nodes.now }
    requires low { 16 ≤ n }
    requires high { n ≤ 32 }
    ensures { OnOk result (Put n out.old.items out.new.items (return_numbers in_main (Some (term_at nodes.now e)))) }
{
    if in_main {
        push_steps(nodes, e, n, out)
    } else {
        push_term(nodes, e, n, out)
    }
}

/// Puts the numbers in the statements of a command behind the others, wrapped to n bits; for `main` those of a value that
/// `return` drops are left out.
///
/// They stand part by part, those of a `for`'s step behind those of its body. The one error is want of memory.
#[cycle(commands)]
pub fn push_numbers(
    nodes: &[Node],
    in_main: bool,
    c: usize,
    n: u32,
    out: &mut Vec<i64>,
) -> Result<(), Memory>
    requires falls { Falls nodes.now }
    requires within { c < length nodes.now }
    requires low { 16 ≤ n }
    requires high { n ≤ 32 }
    ensures { OnOk result (out.new.items ≡ out.old.items ++ map (λ z. wrap n (pos z)) (command_numbers in_main (command_at nodes.now c))) }
{
    let mut rest = c;
    while let CommandNode::Seq(x, behind) = command_of(nodes, rest) {
        push_single(nodes, in_main, x, n, out)?;
        rest = behind;
    }
    push_single(nodes, in_main, rest, n, out)
}

/// Puts the numbers in the statements of two commands behind the others. The one error is want of memory.
#[cycle(commands)]
fn push_two(
    nodes: &[Node],
    in_main: bool,
    x: usize,
    y: usize,
    n: u32,
    out: &mut Vec<i64>,
) -> Result<(), Memory>
    requires falls { Falls nodes.now }
    requires first { x < length nodes.now }
    requires second { y < length nodes.now }
    requires low { 16 ≤ n }
    requires high { n ≤ 32 }
    ensures { OnOk result (Put n out.old.items out.new.items (command_numbers in_main (command_at nodes.now x) ++ command_numbers in_main (command_at nodes.now y))) }
{
    push_numbers(nodes, in_main, x, n, out)?;
    push_numbers(nodes, in_main, y, n, out)
}

/// Puts the numbers of a condition and those in a command's statements behind the others. The one error is want of memory.
#[cycle(commands)]
fn push_guarded(
    nodes: &[Node],
    in_main: bool,
    e: usize,
    x: usize,
    n: u32,
    out: &mut Vec<i64>,
) -> Result<(), Memory>
    requires falls { Falls nodes.now }
    requires condition { e < length nodes.now }
    requires within { x < length nodes.now }
    requires low { 16 ≤ n }
    requires high { n ≤ 32 }
    ensures { OnOk result (Put n out.old.items out.new.items (numbers (term_at nodes.now e) ++ command_numbers in_main (command_at nodes.now x))) }
{
    push_term(nodes, e, n, out)?;
    push_numbers(nodes, in_main, x, n, out)
}

/// Puts the numbers of a condition and those in the statements of two commands behind the others. The one error is want of
/// memory.
#[cycle(commands)]
fn push_branches(
    nodes: &[Node],
    in_main: bool,
    e: usize,
    x: usize,
    y: usize,
    n: u32,
    out: &mut Vec<i64>,
) -> Result<(), Memory>
    requires falls { Falls nodes.now }
    requires condition { e < length nodes.now }
    requires first { x < length nodes.now }
    requires second { y < length nodes.now }
    requires low { 16 ≤ n }
    requires high { n ≤ 32 }
    ensures { OnOk result (Put n out.old.items out.new.items (numbers (term_at nodes.now e) ++ command_numbers in_main (command_at nodes.now x) ++ command_numbers in_main (command_at nodes.now y))) }
{
    push_guarded(nodes, in_main, e, x, n, out)?;
    push_numbers(nodes, in_main, y, n, out)
}

/// Puts the numbers in a command's statements and those of the condition behind it behind the others. The one error is want of
/// memory.
#[cycle(commands)]
fn push_until(
    nodes: &[Node],
    in_main: bool,
    x: usize,
    e: usize,
    n: u32,
    out: &mut Vec<i64>,
) -> Result<(), Memory>
    requires falls { Falls nodes.now }
    requires within { x < length nodes.now }
    requires condition { e < length nodes.now }
    requires low { 16 ≤ n }
    requires high { n ≤ 32 }
    ensures { OnOk result (Put n out.old.items out.new.items (command_numbers in_main (command_at nodes.now x) ++ numbers (term_at nodes.now e))) }
{
    push_numbers(nodes, in_main, x, n, out)?;
    push_term(nodes, e, n, out)
}

/// Puts the numbers in the statements of a command behind the others, part by part. The one error is want of memory.
#[cycle(commands)]
fn push_single(
    nodes: &[Node],
    in_main: bool,
    c: usize,
    n: u32,
    out: &mut Vec<i64>,
) -> Result<(), Memory>
    requires falls { Falls nodes.now }
    requires within { c < length nodes.now }
    requires low { 16 ≤ n }
    requires high { n ≤ 32 }
    ensures { OnOk result (Put n out.old.items out.new.items (command_numbers in_main (command_at nodes.now c))) }
{
    match command_of(nodes, c) {
        CommandNode::Skip => Ok(()),
        CommandNode::Seq(x, y) => push_two(nodes, in_main, x, y, n, out),
        CommandNode::Turn(x) => push_numbers(nodes, in_main, x, n, out),
        CommandNode::Set(_, e) => push_term(nodes, e, n, out),
        CommandNode::Store(_, _, i, e) => push_both(nodes, i, e, n, out),
        CommandNode::Change(_, _, i, _, e) => push_both(nodes, i, e, n, out),
        CommandNode::Print(e) => push_term(nodes, e, n, out),
        CommandNode::Take => Ok(()),
        CommandNode::Invoke(_, xs) => push_arguments(nodes, xs, n, out),
        CommandNode::If(e, x) => push_guarded(nodes, in_main, e, x, n, out),
        CommandNode::IfElse(e, x, y) => push_branches(nodes, in_main, e, x, y, n, out),
        CommandNode::While(e, x) => push_guarded(nodes, in_main, e, x, n, out),
        CommandNode::Do(x, e) => push_until(nodes, in_main, x, e, n, out),
        CommandNode::Forever(step, x) => push_two(nodes, in_main, x, step, n, out),
        CommandNode::For(e, step, x) => push_branches(nodes, in_main, e, x, step, n, out),
        CommandNode::Break => Ok(()),
        CommandNode::Continue => Ok(()),
        CommandNode::Return => Ok(()),
        CommandNode::ReturnWith(e) => push_returned(nodes, in_main, e, n, out),
    }
}
