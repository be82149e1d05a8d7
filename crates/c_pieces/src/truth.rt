//! Conditions as values.

ghost use Rattle.std.specs.Prelude.{◌≡◌, ◌+◌, [], ◌∷◌, OnOk, IfOk};
ghost use Rattle.c_tree.specs.Code.{negated};
ghost use Rattle.c_pieces.specs.Pushed.{Pushed, Ends, aim_shown, inner_cell, inner_aim, truth_before, truth_behind, truth_tree};

use crate::layout::Aim;
use crate::single::{push, push_set};
use crate::tree::sum;
use ir_run::{Stmt, Tree};
use nk_base::Memory;

/// Puts what stands before a condition that may be a value: 1 goes into its cell.
#[tactic(auto, using(ir_run::proofs::Nodes::node_laws))]
pub fn push_before(aim: Aim, cell: u32, out: &mut Vec<Stmt>) -> Result<(), Memory>
    ensures { OnOk result (Pushed out.old.items out.new.items (truth_before (aim_shown aim) cell)) }
{
    match aim {
        Aim::Value => push_set(out, cell, Tree::Const(1)),
        Aim::When(_) => Ok(()),
        Aim::Unless(_) => Ok(()),
    }
}

/// The first step cell of such a condition.
pub fn inside(aim: Aim, cell: u32) -> Result<u32, Memory>
    ensures { IfOk result (λ k. k ≡ inner_cell (aim_shown aim) cell) }
{
    match aim {
        Aim::Value => sum(cell, 1),
        Aim::When(_) => Ok(cell),
        Aim::Unless(_) => Ok(cell),
    }
}

/// What such a condition aims at.
pub fn aimed(aim: Aim, label: u32) -> Aim
    ensures { aim_shown result ≡ inner_aim (aim_shown aim) label }
{
    match aim {
        Aim::Value => Aim::When(label),
        Aim::When(l) => Aim::When(l),
        Aim::Unless(l) => Aim::Unless(l),
    }
}

/// What is negated aims at the label on the other side.
pub fn opposed(aim: Aim) -> Aim
    ensures { aim_shown result ≡ negated (aim_shown aim) }
{
    match aim {
        Aim::Value => Aim::Value,
        Aim::When(l) => Aim::Unless(l),
        Aim::Unless(l) => Aim::When(l),
    }
}

/// Puts what stands behind such a condition: 0 goes into its cell where it doesn't hold. Answers the tree that is left.
#[tactic(auto, using(ir_run::proofs::Nodes::node_laws))]
pub fn push_behind(aim: Aim, cell: u32, label: u32, out: &mut Vec<Stmt>) -> Result<Tree, Memory>
    ensures { IfOk result (λ t. Ends out.old.items out.new.items (truth_behind (aim_shown aim) cell label) (truth_tree (aim_shown aim) cell) t) }
{
    match aim {
        Aim::Value => {
            push_set(out, cell, Tree::Const(0))?;
            push(out, Stmt::Mark(label))?;
            Ok(Tree::Cell(cell))
        }
        Aim::When(_) => Ok(Tree::Const(0)),
        Aim::Unless(_) => Ok(Tree::Const(0)),
    }
}
