//! Steps that have no parts: reads, tests of an index, jumps to functions.

ghost use Rattle.std.specs.Prelude.{◌≡◌, ◌<◌, ◌-◌, ◌^◌, nat_lt, [], ◌∷◌, pos, OnOk, IfOk, MatchResult, Ok, Err};
ghost use Rattle.ir_core.specs.declared.relation.Rel.TheVariants as rel;
ghost use Rattle.ir_core.specs.declared.operator.Arith.TheVariants as arith;
ghost use Rattle.ir_core.specs.Operator.{wrap};
ghost use Rattle.ir_run.specs.Shifts.{IsCellWidth};
ghost use Rattle.ir_run.specs.Node.{Const, Cell, Base, Load, Binary, node};
ghost use Rattle.ir_run.specs.Entry as entries;
ghost use Rattle.c_tree.specs.Code.{passed, jump_steps, frame_of, cell_of, is_saved, is_below_length, scalar_read};
ghost use Rattle.c_pieces.specs.Pushed.{Pushed, Left, Ends, frame_shown, layout_shown};

use crate::layout::{At, Frame, Layout};
use crate::single::{push, push_set};
use crate::tree::{load, sum};
use c_tree::Place;
use ir_core::Rel;
use ir_run::{Stmt, Tree};
use nk_base::{Memory, Ty, wrap};
use std::alloc::Global;

/// A number of the source, wrapped.
fn wrapped(bits: u32, z: u64) -> i64
    requires { IsCellWidth bits }
    ensures { result ≡ wrap bits (pos z) }
{
    wrap(Ty::Int(bits), i128::from(z)) as i64
}

/// A number of the source, as a tree.
#[tactic(auto, using(ir_run::proofs::Nodes::node_laws))]
pub fn number(bits: u32, z: u64) -> Tree
    requires { IsCellWidth bits }
    ensures { node result ≡ Const (wrap bits (pos z)) }
{
    Tree::Const(wrapped(bits, z))
}

/// A number, where it fits. The one error is want of memory; a number of 2^32 or more counts as such.
fn narrow(k: u128) -> Result<u32, Memory>
    ensures { IfOk result (λ n. n ≡ k) }
{
    if k > 4_294_967_295 {
        return Err(Memory);
    }
    Ok(k as u32)
}

/// The first cell of a variable. The one error is want of memory, as which a number of 2^32 or more counts.
pub fn cell_number(t: &Layout<'_>, place: Place) -> Result<u32, Memory>
    ensures { IfOk result (λ k. k ≡ cell_of (layout_shown t.now) place) }
{
    match place {
        Place::Global(k) => narrow(k),
        Place::Local(k) => sum(t.base, narrow(k)?),
    }
}

/// The value with what comes behind it.
pub fn kept<T: Drop, U>(before: T, behind: Result<U, Memory>) -> Result<(T, U), Memory>
    ensures { MatchResult result (λ x. (x.0 ≡ before) × (behind ≡ Ok x.1)) (λ fault. behind ≡ Err fault) }
{
    match behind {
        Ok(found) => Ok((before, found)),
        Err(fault) => Err(fault),
    }
}

/// The frame of a function; one that isn't there is all 0.
pub fn frame_at(t: &Layout<'_>, g: usize) -> Frame
    ensures { frame_shown result ≡ frame_of (layout_shown t.now) g }
{
    match t.frames.get(g) {
        None => Frame {
            first: 0,
            result: 0,
            ret: 0,
            label: 0,
        },
        Some(found) => *found,
    }
}

/// Whether a scalar's read is saved, `later` telling that a call begins further right.
fn saved(later: bool, place: Place) -> bool
    ensures { result ≡ is_saved later place }
{
    match place {
        Place::Global(_) => later,
        Place::Local(_) => false,
    }
}

/// Puts the read of a scalar behind the others, where it is saved, and answers the cell where it stands.
///
/// The one error is want of memory.
#[tactic(auto, using(ir_run::proofs::Nodes::node_laws))]
pub fn push_scalar(
    t: &Layout<'_>,
    at: At,
    place: Place,
    out: &mut Vec<Stmt>,
) -> Result<Tree, Memory>
    ensures { IfOk result (λ r. Left out.old.items out.new.items (scalar_read (is_saved at.later place) at.cell (cell_of (layout_shown t.now) place)) r) }
{
    let cell = cell_number(t, place)?;
    if saved(at.later, place) {
        push_set(out, at.cell, Tree::Cell(cell))?;
        return Ok(Tree::Cell(at.cell));
    }
    Ok(Tree::Cell(cell))
}

/// Whether a number of so many bits holds an array's length.
fn is_short(bits: u32, length: u64) -> bool
    requires { IsCellWidth bits }
    ensures { result ≡ nat_lt length (2 ^ (bits - 1)) }
{
    length < 1 << (bits - 1)
}

/// A length that fits, as a number of 32 bits.
fn short_length(length: u64) -> u32
    requires { length < 4294967296 }
    ensures { result ≡ length }
{
    length as u32
}

/// Puts the branch to the trap behind the others that an index less than 0 takes.
#[tactic(auto, using(ir_run::proofs::Nodes::node_laws))]
fn push_negative(cell: u32, trap: u32, out: &mut Vec<Stmt>) -> Result<(), Memory>
    ensures { OnOk result (Pushed out.old.items out.new.items (entries.Branch rel.Lt (Cell cell) (Const (pos 0)) trap ∷ [])) }
{
    push(
        out,
        Stmt::Branch(Rel::Lt, Tree::Cell(cell), Tree::Const(0), trap),
    )
}

/// Puts the branch to the trap behind the others that an index of `limit` or more takes.
#[tactic(auto, using(ir_run::proofs::Nodes::node_laws))]
fn push_past(cell: u32, limit: u32, trap: u32, out: &mut Vec<Stmt>) -> Result<(), Memory>
    ensures { OnOk result (Pushed out.old.items out.new.items (entries.Branch rel.Ge (Cell cell) (Const (pos limit)) trap ∷ [])) }
{
    let limit = Tree::Const(i64::from(limit));
    push(out, Stmt::Branch(Rel::Ge, Tree::Cell(cell), limit, trap))
}

/// Puts the second test of an index behind the others.
fn push_length_test(
    t: &Layout<'_>,
    length: u64,
    cell: u32,
    out: &mut Vec<Stmt>,
) -> Result<(), Memory>
    requires { IsCellWidth t.now.bits }
    ensures { OnOk result (Pushed out.old.items out.new.items (is_below_length (layout_shown t.now) length cell ∷ [])) }
{
    if is_short(t.bits, length) {
        return push_past(cell, short_length(length), t.trap, out);
    }
    push_negative(cell, t.trap, out)
}

/// Puts an index into its cell behind the others, and its tests.
///
/// The one error is want of memory.
pub fn push_tests(
    t: &Layout<'_>,
    length: u64,
    index: Tree,
    cell: u32,
    out: &mut Vec<Stmt>,
) -> Result<(), Memory>
    requires { IsCellWidth t.now.bits }
    ensures { OnOk result (Pushed out.old.items out.new.items (entries.Set cell (node index) ∷ entries.Branch rel.Lt (Cell cell) (Const (pos 0)) t.now.trap ∷ is_below_length (layout_shown t.now) length cell ∷ [])) }
{
    push_set(out, cell, index)?;
    push_negative(cell, t.trap, out)?;
    push_length_test(t, length, cell, out)
}

/// Puts the read of an array's element behind the others, whose index is in a cell, into that cell.
#[tactic(auto, using(ir_run::proofs::Nodes::node_laws))]
pub fn push_load(alloc: Global, cell: u32, base: u32, out: &mut Vec<Stmt>) -> Result<Tree, Memory>
    ensures { IfOk result (λ r. Ends out.old.items out.new.items (entries.Set cell (Load (Binary arith.Add (Cell cell) (Base base))) ∷ []) (Cell cell) r) }
{
    push_set(out, cell, load(alloc, cell, base)?)?;
    Ok(Tree::Cell(cell))
}

/// Puts the values in these cells into parameters from this one on.
#[tactic(auto, using(ir_run::proofs::Nodes::node_laws))]
fn push_passed(parameter: u32, values: &[u32], out: &mut Vec<Stmt>) -> Result<(), Memory>
    ensures { OnOk result (Pushed out.old.items out.new.items (passed parameter values.now)) }
{
    let mut to = parameter;
    for value in values {
        push_set(out, to, Tree::Cell(*value))?;
        to = sum(to, 1)?;
    }
    Ok(())
}

/// Puts a call behind its arguments, whose values are in these cells: the parameters, the return word, the jump, and where it
/// comes back.
///
/// The one error is want of memory.
#[tactic(auto, using(ir_run::proofs::Nodes::node_laws))]
pub fn push_jump(frame: Frame, values: &[u32], back: u32, out: &mut Vec<Stmt>) -> Result<(), Memory>
    ensures { OnOk result (Pushed out.old.items out.new.items (jump_steps (frame_shown frame) values.now back)) }
{
    push_passed(frame.first, values, out)?;
    push_set(out, frame.ret, Tree::Label(back))?;
    push(out, Stmt::Jump(frame.label))?;
    push(out, Stmt::Mark(back))
}
