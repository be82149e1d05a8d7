//! Trees.

ghost use Rattle.std.specs.Prelude.{◌≡◌, ◌+◌, IfOk};
ghost use Rattle.ir_run.specs.Node.{Unary, Binary, Cell, Base, Load, node};
ghost use Rattle.ir_core.specs.declared.operator.Arith.TheVariants as arith;
ghost use Rattle.c_tree.specs.Code.{shifted_tree};

use ir_core::{Arith, Prefix, Shift};
use ir_run::Tree;
use nk_base::Memory;
use sqlite_items::Boxed;
use std::alloc::Global;

/// The sum. The one error is want of memory; a number of 2^32 or more counts as such.
pub fn sum(a: u32, b: u32) -> Result<u32, Memory>
    ensures { IfOk result (λ n. n ≡ a + b) }
{
    match a.checked_add(b) {
        Some(n) => Ok(n),
        None => Err(Memory),
    }
}

/// `-` or `~` over a tree.
#[tactic(auto, using(ir_run::proofs::Nodes::node_laws))]
pub fn unary(alloc: Global, op: Prefix, x: Tree) -> Result<Tree, Memory>
    ensures { IfOk result (λ t. node t ≡ Unary op (node x)) }
{
    let inner = Boxed::new(alloc, x)?;
    match op {
        Prefix::Neg => Ok(Tree::Neg(inner)),
        Prefix::Not => Ok(Tree::Not(inner)),
    }
}

/// A shift of a tree, which is the tree itself where it is by 0.
#[tactic(auto, using(ir_run::proofs::Nodes::node_laws))]
pub fn shift(alloc: Global, op: Shift, x: Tree, by: u64) -> Result<Tree, Memory>
    ensures { IfOk result (λ t. node t ≡ shifted_tree op (node x) by) }
{
    if by == 0 {
        return Ok(x);
    }
    if by > 4_294_967_295 {
        return Err(Memory);
    }
    let inner = Boxed::new(alloc, x)?;
    match op {
        Shift::Shl => Ok(Tree::Shl(inner, by as u32)),
        Shift::Shr => Ok(Tree::Shr(inner, by as u32)),
    }
}

/// An operator over two trees.
#[tactic(auto, using(ir_run::proofs::Nodes::node_laws))]
pub fn binary(alloc: Global, op: Arith, x: Tree, y: Tree) -> Result<Tree, Memory>
    ensures { IfOk result (λ t. node t ≡ Binary op (node x) (node y)) }
{
    let left = Boxed::new(alloc, x)?;
    let right = Boxed::new(alloc, y)?;
    match op {
        Arith::Add => Ok(Tree::Add(left, right)),
        Arith::Sub => Ok(Tree::Sub(left, right)),
        Arith::Mul => Ok(Tree::Mul(left, right)),
        Arith::And => Ok(Tree::And(left, right)),
        Arith::Or => Ok(Tree::Or(left, right)),
        Arith::Xor => Ok(Tree::Xor(left, right)),
    }
}

/// The address of an array's element whose index is in a cell.
#[tactic(auto, using(ir_run::proofs::Nodes::node_laws))]
pub fn address(alloc: Global, index: u32, base: u32) -> Result<Tree, Memory>
    ensures { IfOk result (λ t. node t ≡ Binary arith.Add (Cell index) (Base base)) }
{
    binary(alloc, Arith::Add, Tree::Cell(index), Tree::Base(base))
}

/// The element whose index is in a cell.
#[tactic(auto, using(ir_run::proofs::Nodes::node_laws))]
pub fn load(alloc: Global, index: u32, base: u32) -> Result<Tree, Memory>
    ensures { IfOk result (λ t. node t ≡ Load (Binary arith.Add (Cell index) (Base base))) }
{
    let inner = Boxed::new(alloc, address(alloc, index, base)?)?;
    Ok(Tree::Load(inner))
}
