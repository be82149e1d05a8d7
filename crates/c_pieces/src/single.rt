//! Single statements, put behind others.

ghost use Rattle.std.specs.Prelude.{◌≡◌, [], ◌∷◌, pos, OnOk, IfOk};
ghost use Rattle.ir_run.specs.Node.{Const, Cell, Label, node};
ghost use Rattle.ir_run.specs.Entry.{entry};
ghost use Rattle.ir_run.specs.Entry as entries;
ghost use Rattle.c_tree.specs.Code as code;
ghost use Rattle.c_pieces.specs.Pushed.{Pushed, Ends, aim_shown, used_steps, used_tree};

use crate::layout::Aim;
use ir_core::Rel;
use ir_run::{Stmt, Tree};
use nk_base::Memory;

/// Puts a statement behind the others. The one error is want of memory.
pub fn push(out: &mut Vec<Stmt>, one: Stmt) -> Result<(), Memory>
    ensures { OnOk result (Pushed out.old.items out.new.items (entry one ∷ [])) }
{
    out.push(one)?;
    Ok(())
}

/// Puts `Set` behind the others. The one error is want of memory.
pub fn push_set(out: &mut Vec<Stmt>, cell: u32, value: Tree) -> Result<(), Memory>
    ensures { OnOk result (Pushed out.old.items out.new.items (entries.Set cell (node value) ∷ [])) }
{
    push(out, Stmt::Set(cell, value))
}

/// Puts the branch behind the others that an aim at a label has for a value, and answers the tree that is left.
///
/// The one error is want of memory.
#[tactic(auto, using(ir_run::proofs::Nodes::node_laws))]
pub fn push_used(aim: Aim, value: Tree, out: &mut Vec<Stmt>) -> Result<Tree, Memory>
    ensures { IfOk result (λ t. Ends out.old.items out.new.items (used_steps (aim_shown aim) (node value)) (used_tree (aim_shown aim) (node value)) t) }
{
    match aim {
        Aim::Value => Ok(value),
        Aim::When(label) => {
            push(out, Stmt::Branch(Rel::Ne, value, Tree::Const(0), label))?;
            Ok(Tree::Const(0))
        }
        Aim::Unless(label) => {
            push(out, Stmt::Branch(Rel::Eq, value, Tree::Const(0), label))?;
            Ok(Tree::Const(0))
        }
    }
}

/// The relation that holds where this one fails.
fn opposite(r: Rel) -> Rel
    ensures { result ≡ code.opposite r }
{
    match r {
        Rel::Eq => Rel::Ne,
        Rel::Ne => Rel::Eq,
        Rel::Lt => Rel::Ge,
        Rel::Le => Rel::Gt,
        Rel::Gt => Rel::Le,
        Rel::Ge => Rel::Lt,
    }
}

/// Puts the branch of a comparison behind the others; a value has none. The one error is want of memory.
#[tactic(auto, using(ir_run::proofs::Nodes::node_laws))]
pub fn push_branch(aim: Aim, r: Rel, x: Tree, y: Tree, out: &mut Vec<Stmt>) -> Result<(), Memory>
    ensures { OnOk result (Pushed out.old.items out.new.items (code.branch (aim_shown aim) r (node x) (node y))) }
{
    match aim {
        Aim::Value => Ok(()),
        Aim::When(label) => push(out, Stmt::Branch(r, x, y, label)),
        Aim::Unless(label) => push(out, Stmt::Branch(opposite(r), x, y, label)),
    }
}
