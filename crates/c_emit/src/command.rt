//! The statements of commands.

ghost use Rattle.std.specs.Prelude.{◌≡◌, ◌<◌, None, Some, length, OnOk};
ghost use Rattle.ir_run.specs.Shifts.{IsCellWidth};
ghost use Rattle.c_tree.specs.Program as commands;
ghost use Rattle.c_tree.specs.Lowered.{statements};
ghost use Rattle.c_flat.specs.Sorts.{term_at, command_at};
ghost use Rattle.c_pieces.specs.Pushed.{Pushed, IsProgram, layout_shown};
ghost use Rattle.c_emit.specs.Placed.{leaving_shown, ends_shown, steps_at, turns};

use crate::read::{
    command_of, end_of_turns, label_behind_command, looped, seq_of, spot_behind, spot_inside,
    spot_past,
};
use crate::simple::{
    Element, push_assigned, push_change, push_condition, push_invoke, push_leave, push_print,
    push_return_with, push_store, push_take, push_turning,
};
use crate::spot::{Ends, Leaving, Spot};
use c_flat::CommandNode;
use c_pieces::{Aim, Layout, Nodes, label_behind, push};
use ir_run::Stmt;
use nk_base::Memory;
use std::alloc::Global;

/// Puts the statements of a command behind the others: of one that stands in a function which is left so and in a loop with
/// these ends, from this first step cell and this first label on.
///
/// The one error is want of memory; a cell's or a label's number of 2^32 or more counts as such.
pub fn push_command(
    alloc: Global,
    program: &Nodes<'_>,
    t: &Layout<'_>,
    leaving: Leaving,
    ends: Ends,
    cell: u32,
    label: u32,
    c: usize,
    out: &mut Vec<Stmt>,
) -> Result<(), Memory>
    requires width { IsCellWidth t.now.bits }
    requires program { IsProgram program.now.nodes.now program.now.sizes.now }
    requires within { c < length program.now.nodes.now }
    ensures { OnOk result (Pushed out.old.items out.new.items (statements (layout_shown t.now) (leaving_shown leaving) (ends_shown ends) cell label (command_at program.now.nodes.now c))) }
{
    let spot = Spot {
        leaving,
        ends,
        cell,
        label,
    };
    push_statements(alloc, program, t, spot, c, out)
}

/// Puts the statements of a command behind the others, which stand here. It calls itself as deep as commands stand in commands.
#[cycle(commands)]
fn push_statements(
    alloc: Global,
    program: &Nodes<'_>,
    t: &Layout<'_>,
    spot: Spot,
    c: usize,
    out: &mut Vec<Stmt>,
) -> Result<(), Memory>
    requires width { IsCellWidth t.now.bits }
    requires program { IsProgram program.now.nodes.now program.now.sizes.now }
    requires within { c < length program.now.nodes.now }
    ensures { OnOk result (Pushed out.old.items out.new.items (steps_at (layout_shown t.now) spot (command_at program.now.nodes.now c))) }
{
    match command_of(program.nodes, c) {
        CommandNode::Skip => Ok(()),
        CommandNode::Seq(x, y) => push_chain(alloc, program, t, spot, x, y, out),
        CommandNode::Turn(x) => push_statements(alloc, program, t, spot, x, out),
        CommandNode::Set(place, e) => push_assigned(alloc, program, t, spot, place, e, out),
        CommandNode::Store(place, count, index, e) => {
            let element = Element {
                place,
                count,
                index,
            };
            push_store(alloc, program, t, spot, element, e, out)
        }
        CommandNode::Change(place, count, index, op, e) => {
            let element = Element {
                place,
                count,
                index,
            };
            push_change(alloc, program, t, spot, element, op, e, out)
        }
        CommandNode::Print(e) => push_print(alloc, program, t, spot, e, out),
        CommandNode::Take => push_take(t, spot, out),
        CommandNode::Invoke(g, xs) => push_invoke(alloc, program, t, spot, g, xs, out),
        CommandNode::If(e, x) => push_if(alloc, program, t, spot, e, x, out),
        CommandNode::IfElse(e, x, y) => push_if_else(alloc, program, t, spot, e, x, y, out),
        CommandNode::While(e, x) => push_while(alloc, program, t, spot, e, x, out),
        CommandNode::Do(x, e) => push_do(alloc, program, t, spot, x, e, out),
        CommandNode::Forever(step, x) => push_forever(alloc, program, t, spot, step, x, out),
        CommandNode::For(e, step, x) => push_for(alloc, program, t, spot, e, step, x, out),
        CommandNode::Break => push(out, Stmt::Jump(spot.ends.broke)),
        CommandNode::Continue => push(out, Stmt::Jump(spot.ends.continued)),
        CommandNode::Return => push_leave(spot.leaving, out),
        CommandNode::ReturnWith(e) => push_return_with(alloc, program, t, spot, e, out),
    }
}

/// Puts the statements of commands one behind the other behind the others: those of the first, and of what is behind it, along
/// which it walks.
#[cycle(commands)]
fn push_chain(
    alloc: Global,
    program: &Nodes<'_>,
    t: &Layout<'_>,
    spot: Spot,
    x: usize,
    y: usize,
    out: &mut Vec<Stmt>,
) -> Result<(), Memory>
    requires width { IsCellWidth t.now.bits }
    requires program { IsProgram program.now.nodes.now program.now.sizes.now }
    requires first { x < length program.now.nodes.now }
    requires second { y < length program.now.nodes.now }
    ensures { OnOk result (Pushed out.old.items out.new.items (steps_at (layout_shown t.now) spot (commands.Seq (command_at program.now.nodes.now x) (command_at program.now.nodes.now y)))) }
{
    push_statements(alloc, program, t, spot, x, out)?;
    let mut here = spot_behind(program, spot, x)?;
    let mut rest = y;
    while let Some((next, behind)) = seq_of(program.nodes, rest) {
        push_statements(alloc, program, t, here, next, out)?;
        here = spot_behind(program, here, next)?;
        rest = behind;
    }
    push_statements(alloc, program, t, here, rest, out)
}

/// Puts `if` behind the others.
#[cycle(commands)]
fn push_if(
    alloc: Global,
    program: &Nodes<'_>,
    t: &Layout<'_>,
    spot: Spot,
    e: usize,
    x: usize,
    out: &mut Vec<Stmt>,
) -> Result<(), Memory>
    requires width { IsCellWidth t.now.bits }
    requires program { IsProgram program.now.nodes.now program.now.sizes.now }
    requires test { e < length program.now.nodes.now }
    requires body { x < length program.now.nodes.now }
    ensures { OnOk result (Pushed out.old.items out.new.items (steps_at (layout_shown t.now) spot (commands.If (term_at program.now.nodes.now e) (command_at program.now.nodes.now x)))) }
{
    let inside = spot_past(program, spot, Aim::Unless(0), e)?;
    let end = label_behind_command(program, inside.label, x)?;
    push_condition(alloc, program, t, spot, Aim::Unless(end), e, out)?;
    push_statements(alloc, program, t, inside, x, out)?;
    push(out, Stmt::Mark(end))
}

/// Puts `if` with `else` behind the others.
#[cycle(commands)]
fn push_if_else(
    alloc: Global,
    program: &Nodes<'_>,
    t: &Layout<'_>,
    spot: Spot,
    e: usize,
    x: usize,
    y: usize,
    out: &mut Vec<Stmt>,
) -> Result<(), Memory>
    requires width { IsCellWidth t.now.bits }
    requires program { IsProgram program.now.nodes.now program.now.sizes.now }
    requires test { e < length program.now.nodes.now }
    requires first { x < length program.now.nodes.now }
    requires second { y < length program.now.nodes.now }
    ensures { OnOk result (Pushed out.old.items out.new.items (steps_at (layout_shown t.now) spot (commands.IfElse (term_at program.now.nodes.now e) (command_at program.now.nodes.now x) (command_at program.now.nodes.now y)))) }
{
    let inside = spot_past(program, spot, Aim::Unless(0), e)?;
    let other = spot_behind(program, inside, x)?;
    let within = spot_inside(other)?;
    let end = label_behind_command(program, within.label, y)?;
    push_condition(alloc, program, t, spot, Aim::Unless(other.label), e, out)?;
    push_statements(alloc, program, t, inside, x, out)?;
    push_turning(end, other.label, out)?;
    push_statements(alloc, program, t, within, y, out)?;
    push(out, Stmt::Mark(end))
}

/// Puts `while` behind the others.
#[cycle(commands)]
fn push_while(
    alloc: Global,
    program: &Nodes<'_>,
    t: &Layout<'_>,
    spot: Spot,
    e: usize,
    x: usize,
    out: &mut Vec<Stmt>,
) -> Result<(), Memory>
    requires width { IsCellWidth t.now.bits }
    requires program { IsProgram program.now.nodes.now program.now.sizes.now }
    requires test { e < length program.now.nodes.now }
    requires body { x < length program.now.nodes.now }
    ensures { OnOk result (Pushed out.old.items out.new.items (steps_at (layout_shown t.now) spot (commands.While (term_at program.now.nodes.now e) (command_at program.now.nodes.now x)))) }
{
    let test = spot_inside(spot)?;
    let body = spot_past(program, test, Aim::Unless(0), e)?;
    let end = label_behind_command(program, body.label, x)?;
    push(out, Stmt::Mark(spot.label))?;
    push_condition(alloc, program, t, test, Aim::Unless(end), e, out)?;
    push_statements(alloc, program, t, looped(body, end, spot.label), x, out)?;
    push_turning(spot.label, end, out)
}

/// Puts `do` behind the others.
#[cycle(commands)]
fn push_do(
    alloc: Global,
    program: &Nodes<'_>,
    t: &Layout<'_>,
    spot: Spot,
    x: usize,
    e: usize,
    out: &mut Vec<Stmt>,
) -> Result<(), Memory>
    requires width { IsCellWidth t.now.bits }
    requires program { IsProgram program.now.nodes.now program.now.sizes.now }
    requires body { x < length program.now.nodes.now }
    requires test { e < length program.now.nodes.now }
    ensures { OnOk result (Pushed out.old.items out.new.items (steps_at (layout_shown t.now) spot (commands.Do (command_at program.now.nodes.now x) (term_at program.now.nodes.now e)))) }
{
    let body = spot_inside(spot)?;
    let test = spot_behind(program, body, x)?;
    let within = spot_inside(test)?;
    let end = label_behind(program, within.label, Aim::When(0), e)?;
    push(out, Stmt::Mark(spot.label))?;
    push_statements(alloc, program, t, looped(body, end, test.label), x, out)?;
    push(out, Stmt::Mark(test.label))?;
    push_condition(alloc, program, t, within, Aim::When(spot.label), e, out)?;
    push(out, Stmt::Mark(end))
}

/// Puts what a `for` has behind its condition behind the others.
#[cycle(commands)]
fn push_turns(
    alloc: Global,
    program: &Nodes<'_>,
    t: &Layout<'_>,
    spot: Spot,
    start: u32,
    step: usize,
    x: usize,
    out: &mut Vec<Stmt>,
) -> Result<(), Memory>
    requires width { IsCellWidth t.now.bits }
    requires program { IsProgram program.now.nodes.now program.now.sizes.now }
    requires step { step < length program.now.nodes.now }
    requires body { x < length program.now.nodes.now }
    ensures { OnOk result (Pushed out.old.items out.new.items (turns (layout_shown t.now) spot start (command_at program.now.nodes.now step) (command_at program.now.nodes.now x))) }
{
    let next = spot_behind(program, spot, x)?;
    let within = spot_inside(next)?;
    let end = label_behind_command(program, within.label, step)?;
    push_statements(alloc, program, t, looped(spot, end, next.label), x, out)?;
    push(out, Stmt::Mark(next.label))?;
    push_statements(alloc, program, t, within, step, out)?;
    push_turning(start, end, out)
}

/// Puts a `for` without a condition behind the others.
#[cycle(commands)]
fn push_forever(
    alloc: Global,
    program: &Nodes<'_>,
    t: &Layout<'_>,
    spot: Spot,
    step: usize,
    x: usize,
    out: &mut Vec<Stmt>,
) -> Result<(), Memory>
    requires width { IsCellWidth t.now.bits }
    requires program { IsProgram program.now.nodes.now program.now.sizes.now }
    requires step { step < length program.now.nodes.now }
    requires body { x < length program.now.nodes.now }
    ensures { OnOk result (Pushed out.old.items out.new.items (steps_at (layout_shown t.now) spot (commands.For None (command_at program.now.nodes.now step) (command_at program.now.nodes.now x)))) }
{
    let body = spot_inside(spot)?;
    push(out, Stmt::Mark(spot.label))?;
    push_turns(alloc, program, t, body, spot.label, step, x, out)
}

/// Puts a `for` with a condition behind the others.
#[cycle(commands)]
fn push_for(
    alloc: Global,
    program: &Nodes<'_>,
    t: &Layout<'_>,
    spot: Spot,
    e: usize,
    step: usize,
    x: usize,
    out: &mut Vec<Stmt>,
) -> Result<(), Memory>
    requires width { IsCellWidth t.now.bits }
    requires program { IsProgram program.now.nodes.now program.now.sizes.now }
    requires test { e < length program.now.nodes.now }
    requires step { step < length program.now.nodes.now }
    requires body { x < length program.now.nodes.now }
    ensures { OnOk result (Pushed out.old.items out.new.items (steps_at (layout_shown t.now) spot (commands.For (Some (term_at program.now.nodes.now e)) (command_at program.now.nodes.now step) (command_at program.now.nodes.now x)))) }
{
    let test = spot_inside(spot)?;
    let body = spot_past(program, test, Aim::Unless(0), e)?;
    let end = end_of_turns(program, body, step, x)?;
    push(out, Stmt::Mark(spot.label))?;
    push_condition(alloc, program, t, test, Aim::Unless(end), e, out)?;
    push_turns(alloc, program, t, body, spot.label, step, x, out)
}
