//! Patterns.

ghost use Rattle.std.specs.Prelude.{◌≡◌, IfOk};
ghost use Rattle.pat_core.specs.Tile.{bare, tile};

use ir_core::Rel;
use isg_places::Spot;
use nk_base::Memory;
use sqlite_items::{Boxed, Items};
use std::alloc::Global;

/// A written number, or the number of a field. The form is this project's own.
#[derive(Clone, Copy)]
pub enum Num {
    Const(i64),
    Field(u32),
}

/// The tree of a pattern. Operands are numbered in the prefix order of the tree as written.
///
/// The form is this project's own.
#[derive(Drop)]
pub enum PTree {
    /// What an operand's cell holds, wrapped.
    Operand(u32),
    /// A number, wrapped.
    Number(Num),
    /// The next input.
    In,
    /// What the cell of the data memory holds whose number the tree is worth, modulo 2^n.
    Load(Boxed<PTree>),
    Neg(Boxed<PTree>),
    Not(Boxed<PTree>),
    Shl(Boxed<PTree>, Num),
    Shr(Boxed<PTree>, Num),
    Add(Boxed<PTree>, Boxed<PTree>),
    Sub(Boxed<PTree>, Boxed<PTree>),
    Mul(Boxed<PTree>, Boxed<PTree>),
    And(Boxed<PTree>, Boxed<PTree>),
    Or(Boxed<PTree>, Boxed<PTree>),
    Xor(Boxed<PTree>, Boxed<PTree>),
}

impl PTree {
    /// The number of the operand that the tree is; `None` where it is anything else.
    #[tactic(auto, using(crate::proofs::Tiles::tile_laws))]
    pub fn operand(&self) -> Option<u32>
        ensures { result ≡ bare (tile self.now) }
    {
        match self {
            PTree::Operand(i) => Some(*i),
            PTree::Number(_) => None,
            PTree::In => None,
            PTree::Load(_) => None,
            PTree::Neg(_) => None,
            PTree::Not(_) => None,
            PTree::Shl(_, _) => None,
            PTree::Shr(_, _) => None,
            PTree::Add(_, _) => None,
            PTree::Sub(_, _) => None,
            PTree::Mul(_, _) => None,
            PTree::And(_, _) => None,
            PTree::Or(_, _) => None,
            PTree::Xor(_, _) => None,
        }
    }

    /// The same tree once more. The one error is want of memory.
    pub fn copied(&self, alloc: Global) -> Result<PTree, Memory>
        ensures { IfOk result (λ t. t ≡ self.now) }
    {
        match self {
            PTree::Operand(i) => Ok(PTree::Operand(*i)),
            PTree::Number(c) => Ok(PTree::Number(*c)),
            PTree::In => Ok(PTree::In),
            PTree::Load(t) => Ok(PTree::Load(Boxed::new(alloc, t.get().copied(alloc)?)?)),
            PTree::Neg(t) => Ok(PTree::Neg(Boxed::new(alloc, t.get().copied(alloc)?)?)),
            PTree::Not(t) => Ok(PTree::Not(Boxed::new(alloc, t.get().copied(alloc)?)?)),
            PTree::Shl(t, k) => Ok(PTree::Shl(Boxed::new(alloc, t.get().copied(alloc)?)?, *k)),
            PTree::Shr(t, k) => Ok(PTree::Shr(Boxed::new(alloc, t.get().copied(alloc)?)?, *k)),
            PTree::Add(t, u) => {
                let left = Boxed::new(alloc, t.get().copied(alloc)?)?;
                Ok(PTree::Add(left, Boxed::new(alloc, u.get().copied(alloc)?)?))
            }
            PTree::Sub(t, u) => {
                let left = Boxed::new(alloc, t.get().copied(alloc)?)?;
                Ok(PTree::Sub(left, Boxed::new(alloc, u.get().copied(alloc)?)?))
            }
            PTree::Mul(t, u) => {
                let left = Boxed::new(alloc, t.get().copied(alloc)?)?;
                Ok(PTree::Mul(left, Boxed::new(alloc, u.get().copied(alloc)?)?))
            }
            PTree::And(t, u) => {
                let left = Boxed::new(alloc, t.get().copied(alloc)?)?;
                Ok(PTree::And(left, Boxed::new(alloc, u.get().copied(alloc)?)?))
            }
            PTree::Or(t, u) => {
                let left = Boxed::new(alloc, t.get().copied(alloc)?)?;
                Ok(PTree::Or(left, Boxed::new(alloc, u.get().copied(alloc)?)?))
            }
            PTree::Xor(t, u) => {
                let left = Boxed::new(alloc, t.get().copied(alloc)?)?;
                Ok(PTree::Xor(left, Boxed::new(alloc, u.get().copied(alloc)?)?))
            }
        }
    }
}

/// What a pattern does. The form is this project's own.
#[derive(Drop)]
pub enum Form {
    /// Writes a cell.
    Write(Spot, PTree),
    /// Writes the second tree's value into the cell of the data memory whose number the first is worth, modulo 2^n.
    Store(PTree, PTree),
    /// Puts out a number.
    Out(PTree),
    /// Writes the field of this number to PC where the two trees are so related.
    Branch(Rel, PTree, PTree, u32),
    /// Writes a tree's value to PC.
    JumpCell(PTree),
    /// Writes the field of this number to PC.
    Jump(u32),
    /// Halts with a code, a number of 8 bits.
    Halt(Num),
}

/// A shape that does one thing which programs need: what it does, the spots of its operands, the first operand whose spot is the
/// written one, the other cells that it writes, and the least number of bits of a direct address or an index of the data memory
/// in it, 64 where it has none.
///
/// The form is this project's own.
#[derive(Drop)]
pub struct Pattern {
    pub shape: u32,
    pub form: Form,
    pub operands: Items<Spot>,
    pub tied: Option<u32>,
    pub clobbers: Items<Spot>,
    pub bits: u32,
}

/// All patterns of a machine, and the width of a cell of its data memory. The order is by shape, then by the statement that does
/// it, then by form.
///
/// The form is this project's own.
#[derive(Drop)]
pub struct Patterns {
    pub list: Items<Pattern>,
    pub n: u32,
}
