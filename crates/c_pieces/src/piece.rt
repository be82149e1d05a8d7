//! The steps of expressions, and the trees that are left.

ghost use Rattle.std.specs.Prelude.{◌≡◌, ◌<◌, ◌+◌, [], ◌∷◌, ◌++◌, true, length, OnOk, IfOk};
ghost use Rattle.ir_run.specs.Entry as entries;
ghost use Rattle.ir_run.specs.Shifts.{IsCellWidth};
ghost use Rattle.c_tree.specs.Program.{Unary, Shifted, Arithmetic, Compare, Not, AndAlso, OrElse};
ghost use Rattle.c_tree.specs.Code.{Value, piece, passing, cells, argument_marks, index_steps, call_steps, negated};
ghost use Rattle.c_flat.specs.Sorts.{term_at, terms_at};
ghost use Rattle.c_pieces.specs.Pushed.{Pushed, Left, Passed, Both, IsProgram, layout_shown, aim_shown, first_piece, second_piece, compared, and_steps, or_steps, element_piece, called_piece};

use crate::layout::{Aim, At, Layout, Nodes};
use crate::read::{term_of, terms_of};
use crate::simple::{
    cell_number, frame_at, kept, number, push_jump, push_load, push_scalar, push_tests,
};
use crate::single::{push, push_branch, push_set, push_used};
use crate::sizes::{
    cell_behind, cell_behind_arguments, label_behind, label_behind_arguments, later_with,
    later_within, other_label,
};
use crate::tree::{binary, shift, sum, unary};
use crate::truth::{aimed, inside, opposed, push_before, push_behind};
use c_flat::TermNode;
use c_tree::Place;
use ir_core::{Arith, Prefix, Rel, Shift};
use ir_run::{Stmt, Tree};
use nk_base::Memory;
use std::alloc::Global;

/// Puts the steps of an expression behind the others, and answers the tree that is left.
///
/// The one error is want of memory; a cell's or a label's number of 2^32 or more counts as such.
#[cycle(pieces)]
pub fn push_piece(
    alloc: Global,
    program: &Nodes<'_>,
    t: &Layout<'_>,
    at: At,
    aim: Aim,
    e: usize,
    out: &mut Vec<Stmt>,
) -> Result<Tree, Memory>
    requires width { IsCellWidth t.now.bits }
    requires program { IsProgram program.now.nodes.now program.now.sizes.now }
    requires within { e < length program.now.nodes.now }
    ensures { IfOk result (λ left. Left out.old.items out.new.items (piece (layout_shown t.now) at.cell at.label at.later (aim_shown aim) (term_at program.now.nodes.now e)) left) }
{
    match term_of(program.nodes, e) {
        TermNode::Number(z) => push_used(aim, number(t.bits, z), out),
        TermNode::Scalar(place) => push_used(aim, push_scalar(t, at, place, out)?, out),
        TermNode::Element(place, count, i) => {
            push_used(
                aim,
                push_element(alloc, program, t, at, place, count, i, out)?,
                out,
            )
        }
        TermNode::Input => {
            push_set(out, at.cell, Tree::In)?;
            push_used(aim, Tree::Cell(at.cell), out)
        }
        TermNode::Call(g, xs) => {
            push_used(aim, push_called(alloc, program, t, at, g, xs, out)?, out)
        }
        TermNode::Unary(op, x) => push_unary(alloc, program, t, at, aim, op, x, out),
        TermNode::Shifted(op, x, by) => push_shifted(alloc, program, t, at, aim, op, x, by, out),
        TermNode::Arithmetic(op, x, y) => {
            push_arithmetic(alloc, program, t, at, aim, op, x, y, out)
        }
        TermNode::Compare(r, x, y) => push_compare(alloc, program, t, at, aim, r, x, y, out),
        TermNode::Not(x) => push_not(alloc, program, t, at, aim, x, out),
        TermNode::AndAlso(x, y) => push_and(alloc, program, t, at, aim, x, y, out),
        TermNode::OrElse(x, y) => push_or(alloc, program, t, at, aim, x, y, out),
    }
}

/// Puts the steps of two parts behind the others, one after the other, and answers the trees that are left.
#[cycle(pieces)]
fn push_both(
    alloc: Global,
    program: &Nodes<'_>,
    t: &Layout<'_>,
    at: At,
    v: Aim,
    w: Aim,
    x: usize,
    y: usize,
    out: &mut Vec<Stmt>,
) -> Result<(Tree, Tree), Memory>
    requires width { IsCellWidth t.now.bits }
    requires program { IsProgram program.now.nodes.now program.now.sizes.now }
    requires first { x < length program.now.nodes.now }
    requires second { y < length program.now.nodes.now }
    ensures { IfOk result (λ r. Both out.old.items out.new.items (first_piece (layout_shown t.now) at.cell at.label at.later (aim_shown v) (term_at program.now.nodes.now x) (term_at program.now.nodes.now y)) (second_piece (layout_shown t.now) at.cell at.label at.later (aim_shown v) (aim_shown w) (term_at program.now.nodes.now x) (term_at program.now.nodes.now y)) r.0 r.1) }
{
    let later = later_with(program, at.later, y);
    let cell = cell_behind(program, at.cell, later, v, x)?;
    let label = label_behind(program, at.label, v, x)?;
    let before = At {
        cell: at.cell,
        label: at.label,
        later,
    };
    let behind = At {
        cell,
        label,
        later: at.later,
    };
    let first = push_piece(alloc, program, t, before, v, x, out)?;
    kept(first, push_piece(alloc, program, t, behind, w, y, out))
}

/// Puts `-` or `~` over a part behind the others, and answers the tree that is left.
#[cycle(pieces)]
fn push_unary(
    alloc: Global,
    program: &Nodes<'_>,
    t: &Layout<'_>,
    at: At,
    aim: Aim,
    op: Prefix,
    x: usize,
    out: &mut Vec<Stmt>,
) -> Result<Tree, Memory>
    requires width { IsCellWidth t.now.bits }
    requires program { IsProgram program.now.nodes.now program.now.sizes.now }
    requires within { x < length program.now.nodes.now }
    ensures { IfOk result (λ left. Left out.old.items out.new.items (piece (layout_shown t.now) at.cell at.label at.later (aim_shown aim) (Unary op (term_at program.now.nodes.now x))) left) }
{
    let inner = push_piece(alloc, program, t, at, Aim::Value, x, out)?;
    push_used(aim, unary(alloc, op, inner)?, out)
}

/// Puts a shift behind the others, and answers the tree that is left.
#[cycle(pieces)]
fn push_shifted(
    alloc: Global,
    program: &Nodes<'_>,
    t: &Layout<'_>,
    at: At,
    aim: Aim,
    op: Shift,
    x: usize,
    by: u64,
    out: &mut Vec<Stmt>,
) -> Result<Tree, Memory>
    requires width { IsCellWidth t.now.bits }
    requires program { IsProgram program.now.nodes.now program.now.sizes.now }
    requires within { x < length program.now.nodes.now }
    ensures { IfOk result (λ left. Left out.old.items out.new.items (piece (layout_shown t.now) at.cell at.label at.later (aim_shown aim) (Shifted op (term_at program.now.nodes.now x) by)) left) }
{
    let inner = push_piece(alloc, program, t, at, Aim::Value, x, out)?;
    push_used(aim, shift(alloc, op, inner, by)?, out)
}

/// Puts an operator over two parts behind the others, and answers the tree that is left.
#[cycle(pieces)]
fn push_arithmetic(
    alloc: Global,
    program: &Nodes<'_>,
    t: &Layout<'_>,
    at: At,
    aim: Aim,
    op: Arith,
    x: usize,
    y: usize,
    out: &mut Vec<Stmt>,
) -> Result<Tree, Memory>
    requires width { IsCellWidth t.now.bits }
    requires program { IsProgram program.now.nodes.now program.now.sizes.now }
    requires first { x < length program.now.nodes.now }
    requires second { y < length program.now.nodes.now }
    ensures { IfOk result (λ left. Left out.old.items out.new.items (piece (layout_shown t.now) at.cell at.label at.later (aim_shown aim) (Arithmetic op (term_at program.now.nodes.now x) (term_at program.now.nodes.now y))) left) }
{
    let parts = push_both(alloc, program, t, at, Aim::Value, Aim::Value, x, y, out)?;
    push_used(aim, binary(alloc, op, parts.0, parts.1)?, out)
}

/// Puts an index into its cell behind the others, with its tests, and answers that cell.
///
/// The one error is want of memory; a cell's or a label's number of 2^32 or more counts as such.
#[cycle(pieces)]
pub fn push_index(
    alloc: Global,
    program: &Nodes<'_>,
    t: &Layout<'_>,
    at: At,
    count: u64,
    i: usize,
    out: &mut Vec<Stmt>,
) -> Result<u32, Memory>
    requires width { IsCellWidth t.now.bits }
    requires program { IsProgram program.now.nodes.now program.now.sizes.now }
    requires within { i < length program.now.nodes.now }
    ensures { IfOk result (λ s. (s ≡ at.cell + cells at.later true (term_at program.now.nodes.now i)) × Pushed out.old.items out.new.items (index_steps (layout_shown t.now) count (piece (layout_shown t.now) at.cell at.label at.later Value (term_at program.now.nodes.now i)) s)) }
{
    let cell = cell_behind(program, at.cell, at.later, Aim::Value, i)?;
    let index = push_piece(alloc, program, t, at, Aim::Value, i, out)?;
    push_tests(t, count, index, cell, out)?;
    Ok(cell)
}

/// Puts the read of an array's element behind the others, and answers the tree that is left.
#[cycle(pieces)]
fn push_element(
    alloc: Global,
    program: &Nodes<'_>,
    t: &Layout<'_>,
    at: At,
    place: Place,
    count: u64,
    i: usize,
    out: &mut Vec<Stmt>,
) -> Result<Tree, Memory>
    requires width { IsCellWidth t.now.bits }
    requires program { IsProgram program.now.nodes.now program.now.sizes.now }
    requires within { i < length program.now.nodes.now }
    ensures { IfOk result (λ left. Left out.old.items out.new.items (element_piece (layout_shown t.now) at.cell at.label at.later place count (term_at program.now.nodes.now i)) left) }
{
    let base = cell_number(t, place)?;
    let cell = push_index(alloc, program, t, at, count, i, out)?;
    push_load(alloc, cell, base, out)
}

/// Puts the steps of an argument behind the others, and its value into this cell.
#[cycle(pieces)]
fn push_argument(
    alloc: Global,
    program: &Nodes<'_>,
    t: &Layout<'_>,
    at: At,
    cell: u32,
    x: usize,
    out: &mut Vec<Stmt>,
) -> Result<(), Memory>
    requires width { IsCellWidth t.now.bits }
    requires program { IsProgram program.now.nodes.now program.now.sizes.now }
    requires within { x < length program.now.nodes.now }
    ensures { OnOk result (Pushed out.old.items out.new.items ((piece (layout_shown t.now) at.cell at.label at.later Value (term_at program.now.nodes.now x)).steps ++ entries.Set cell (piece (layout_shown t.now) at.cell at.label at.later Value (term_at program.now.nodes.now x)).tree ∷ [])) }
{
    let value = push_piece(alloc, program, t, at, Aim::Value, x, out)?;
    push_set(out, cell, value)
}

/// Puts the steps of arguments behind the others, and answers the cells in which their values stand.
///
/// The one error is want of memory; a cell's or a label's number of 2^32 or more counts as such.
#[cycle(pieces)]
pub fn push_arguments(
    alloc: Global,
    program: &Nodes<'_>,
    t: &Layout<'_>,
    at: At,
    xs: usize,
    out: &mut Vec<Stmt>,
) -> Result<Vec<u32>, Memory>
    requires width { IsCellWidth t.now.bits }
    requires program { IsProgram program.now.nodes.now program.now.sizes.now }
    requires within { xs < length program.now.nodes.now }
    ensures { IfOk result (λ values. Passed out.old.items out.new.items (passing (layout_shown t.now) at.cell at.label at.later (terms_at program.now.nodes.now xs)) values.items) }
{
    let mut values = Vec::new(alloc);
    let mut cell = at.cell;
    let mut label = at.label;
    let mut rest = xs;
    while let Some((x, behind)) = terms_of(program.nodes, rest) {
        let later = later_within(program, at.later, behind);
        let to = cell_behind(program, cell, later, Aim::Value, x)?;
        push_argument(alloc, program, t, At { cell, label, later }, to, x, out)?;
        values.push(to)?;
        cell = sum(to, 1)?;
        label = label_behind(program, label, Aim::Value, x)?;
        rest = behind;
    }
    Ok(values)
}

/// Puts the steps of a call behind the others.
///
/// The one error is want of memory; a cell's or a label's number of 2^32 or more counts as such.
#[cycle(pieces)]
pub fn push_call(
    alloc: Global,
    program: &Nodes<'_>,
    t: &Layout<'_>,
    at: At,
    g: usize,
    xs: usize,
    out: &mut Vec<Stmt>,
) -> Result<(), Memory>
    requires width { IsCellWidth t.now.bits }
    requires program { IsProgram program.now.nodes.now program.now.sizes.now }
    requires within { xs < length program.now.nodes.now }
    ensures { OnOk result (Pushed out.old.items out.new.items (call_steps (layout_shown t.now) g (passing (layout_shown t.now) at.cell at.label at.later (terms_at program.now.nodes.now xs)) (at.label + argument_marks (terms_at program.now.nodes.now xs)))) }
{
    let back = label_behind_arguments(program, at.label, xs)?;
    let values = push_arguments(alloc, program, t, at, xs, out)?;
    push_jump(frame_at(t, g), values.as_slice(), back, out)
}

/// Puts a call whose value is used behind the others, and answers the tree that is left.
#[cycle(pieces)]
fn push_called(
    alloc: Global,
    program: &Nodes<'_>,
    t: &Layout<'_>,
    at: At,
    g: usize,
    xs: usize,
    out: &mut Vec<Stmt>,
) -> Result<Tree, Memory>
    requires width { IsCellWidth t.now.bits }
    requires program { IsProgram program.now.nodes.now program.now.sizes.now }
    requires within { xs < length program.now.nodes.now }
    ensures { IfOk result (λ left. Left out.old.items out.new.items (called_piece (layout_shown t.now) at.cell at.label at.later g (terms_at program.now.nodes.now xs)) left) }
{
    let cell = cell_behind_arguments(program, at.cell, at.later, xs)?;
    push_call(alloc, program, t, at, g, xs, out)?;
    push_set(out, cell, Tree::Cell(frame_at(t, g).result))?;
    Ok(Tree::Cell(cell))
}

/// Puts a comparison as a condition behind the others.
#[cycle(pieces)]
fn push_compared(
    alloc: Global,
    program: &Nodes<'_>,
    t: &Layout<'_>,
    at: At,
    aim: Aim,
    r: Rel,
    x: usize,
    y: usize,
    out: &mut Vec<Stmt>,
) -> Result<(), Memory>
    requires width { IsCellWidth t.now.bits }
    requires program { IsProgram program.now.nodes.now program.now.sizes.now }
    requires first { x < length program.now.nodes.now }
    requires second { y < length program.now.nodes.now }
    ensures { OnOk result (Pushed out.old.items out.new.items (compared (layout_shown t.now) at.cell at.label at.later (aim_shown aim) r (term_at program.now.nodes.now x) (term_at program.now.nodes.now y))) }
{
    let parts = push_both(alloc, program, t, at, Aim::Value, Aim::Value, x, y, out)?;
    push_branch(aim, r, parts.0, parts.1, out)
}

/// Puts a comparison behind the others, and answers the tree that is left.
#[cycle(pieces)]
fn push_compare(
    alloc: Global,
    program: &Nodes<'_>,
    t: &Layout<'_>,
    at: At,
    aim: Aim,
    r: Rel,
    x: usize,
    y: usize,
    out: &mut Vec<Stmt>,
) -> Result<Tree, Memory>
    requires width { IsCellWidth t.now.bits }
    requires program { IsProgram program.now.nodes.now program.now.sizes.now }
    requires first { x < length program.now.nodes.now }
    requires second { y < length program.now.nodes.now }
    ensures { IfOk result (λ left. Left out.old.items out.new.items (piece (layout_shown t.now) at.cell at.label at.later (aim_shown aim) (Compare r (term_at program.now.nodes.now x) (term_at program.now.nodes.now y))) left) }
{
    let between = label_behind(program, at.label, Aim::Value, x)?;
    let label = label_behind(program, between, Aim::Value, y)?;
    let within = At {
        cell: inside(aim, at.cell)?,
        label: at.label,
        later: at.later,
    };
    push_before(aim, at.cell, out)?;
    push_compared(alloc, program, t, within, aimed(aim, label), r, x, y, out)?;
    push_behind(aim, at.cell, label, out)
}

/// Puts a negated condition behind the others.
#[cycle(pieces)]
fn push_negated(
    alloc: Global,
    program: &Nodes<'_>,
    t: &Layout<'_>,
    at: At,
    aim: Aim,
    x: usize,
    out: &mut Vec<Stmt>,
) -> Result<(), Memory>
    requires width { IsCellWidth t.now.bits }
    requires program { IsProgram program.now.nodes.now program.now.sizes.now }
    requires within { x < length program.now.nodes.now }
    ensures { OnOk result (Pushed out.old.items out.new.items (piece (layout_shown t.now) at.cell at.label at.later (negated (aim_shown aim)) (term_at program.now.nodes.now x)).steps) }
{
    push_piece(alloc, program, t, at, opposed(aim), x, out)?;
    Ok(())
}

/// Puts `!` behind the others, and answers the tree that is left.
#[cycle(pieces)]
fn push_not(
    alloc: Global,
    program: &Nodes<'_>,
    t: &Layout<'_>,
    at: At,
    aim: Aim,
    x: usize,
    out: &mut Vec<Stmt>,
) -> Result<Tree, Memory>
    requires width { IsCellWidth t.now.bits }
    requires program { IsProgram program.now.nodes.now program.now.sizes.now }
    requires within { x < length program.now.nodes.now }
    ensures { IfOk result (λ left. Left out.old.items out.new.items (piece (layout_shown t.now) at.cell at.label at.later (aim_shown aim) (Not (term_at program.now.nodes.now x))) left) }
{
    let label = other_label(program, at.label, aim, x)?;
    let within = At {
        cell: inside(aim, at.cell)?,
        label: at.label,
        later: at.later,
    };
    push_before(aim, at.cell, out)?;
    push_negated(alloc, program, t, within, aimed(aim, label), x, out)?;
    push_behind(aim, at.cell, label, out)
}

/// Puts `&&` as a condition behind the others, `past` being the label behind it.
#[cycle(pieces)]
fn push_and_also(
    alloc: Global,
    program: &Nodes<'_>,
    t: &Layout<'_>,
    at: At,
    aim: Aim,
    past: u32,
    x: usize,
    y: usize,
    out: &mut Vec<Stmt>,
) -> Result<(), Memory>
    requires width { IsCellWidth t.now.bits }
    requires program { IsProgram program.now.nodes.now program.now.sizes.now }
    requires first { x < length program.now.nodes.now }
    requires second { y < length program.now.nodes.now }
    ensures { OnOk result (Pushed out.old.items out.new.items (and_steps (layout_shown t.now) at.cell at.label at.later (aim_shown aim) past (term_at program.now.nodes.now x) (term_at program.now.nodes.now y))) }
{
    match aim {
        Aim::Value => Ok(()),
        Aim::When(label) => {
            let on = Aim::When(label);
            push_both(alloc, program, t, at, Aim::Unless(past), on, x, y, out)?;
            push(out, Stmt::Mark(past))
        }
        Aim::Unless(label) => {
            let off = Aim::Unless(label);
            push_both(alloc, program, t, at, off, off, x, y, out)?;
            Ok(())
        }
    }
}

/// Puts `&&` behind the others, and answers the tree that is left.
#[cycle(pieces)]
fn push_and(
    alloc: Global,
    program: &Nodes<'_>,
    t: &Layout<'_>,
    at: At,
    aim: Aim,
    x: usize,
    y: usize,
    out: &mut Vec<Stmt>,
) -> Result<Tree, Memory>
    requires width { IsCellWidth t.now.bits }
    requires program { IsProgram program.now.nodes.now program.now.sizes.now }
    requires first { x < length program.now.nodes.now }
    requires second { y < length program.now.nodes.now }
    ensures { IfOk result (λ left. Left out.old.items out.new.items (piece (layout_shown t.now) at.cell at.label at.later (aim_shown aim) (AndAlso (term_at program.now.nodes.now x) (term_at program.now.nodes.now y))) left) }
{
    let between = label_behind(program, at.label, Aim::Unless(0), x)?;
    let past = label_behind(program, between, Aim::When(0), y)?;
    let label = sum(past, 1)?;
    let within = At {
        cell: inside(aim, at.cell)?,
        label: at.label,
        later: at.later,
    };
    push_before(aim, at.cell, out)?;
    push_and_also(
        alloc,
        program,
        t,
        within,
        aimed(aim, label),
        past,
        x,
        y,
        out,
    )?;
    push_behind(aim, at.cell, label, out)
}

/// Puts `||` as a condition behind the others, `past` being the label behind it.
#[cycle(pieces)]
fn push_or_else(
    alloc: Global,
    program: &Nodes<'_>,
    t: &Layout<'_>,
    at: At,
    aim: Aim,
    past: u32,
    x: usize,
    y: usize,
    out: &mut Vec<Stmt>,
) -> Result<(), Memory>
    requires width { IsCellWidth t.now.bits }
    requires program { IsProgram program.now.nodes.now program.now.sizes.now }
    requires first { x < length program.now.nodes.now }
    requires second { y < length program.now.nodes.now }
    ensures { OnOk result (Pushed out.old.items out.new.items (or_steps (layout_shown t.now) at.cell at.label at.later (aim_shown aim) past (term_at program.now.nodes.now x) (term_at program.now.nodes.now y))) }
{
    match aim {
        Aim::Value => Ok(()),
        Aim::When(label) => {
            let on = Aim::When(label);
            push_both(alloc, program, t, at, on, on, x, y, out)?;
            Ok(())
        }
        Aim::Unless(label) => {
            let off = Aim::Unless(label);
            push_both(alloc, program, t, at, Aim::When(past), off, x, y, out)?;
            push(out, Stmt::Mark(past))
        }
    }
}

/// Puts `||` behind the others, and answers the tree that is left.
#[cycle(pieces)]
fn push_or(
    alloc: Global,
    program: &Nodes<'_>,
    t: &Layout<'_>,
    at: At,
    aim: Aim,
    x: usize,
    y: usize,
    out: &mut Vec<Stmt>,
) -> Result<Tree, Memory>
    requires width { IsCellWidth t.now.bits }
    requires program { IsProgram program.now.nodes.now program.now.sizes.now }
    requires first { x < length program.now.nodes.now }
    requires second { y < length program.now.nodes.now }
    ensures { IfOk result (λ left. Left out.old.items out.new.items (piece (layout_shown t.now) at.cell at.label at.later (aim_shown aim) (OrElse (term_at program.now.nodes.now x) (term_at program.now.nodes.now y))) left) }
{
    let between = label_behind(program, at.label, Aim::When(0), x)?;
    let past = label_behind(program, between, Aim::Unless(0), y)?;
    let label = label_behind(program, between, Aim::When(0), y)?;
    let within = At {
        cell: inside(aim, at.cell)?,
        label: at.label,
        later: at.later,
    };
    push_before(aim, at.cell, out)?;
    push_or_else(
        alloc,
        program,
        t,
        within,
        aimed(aim, label),
        past,
        x,
        y,
        out,
    )?;
    push_behind(aim, at.cell, label, out)
}
