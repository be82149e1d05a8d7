//! The labels that calls return to.

ghost use Rattle.std.specs.Prelude.{◌≡◌, ℕ, map, flat_map, IfOk};
ghost use Rattle.std.specs.Option.{option_to_list};
ghost use Rattle.ir_run.specs.Node.{node};
ghost use Rattle.ir_run.specs.Entry.{entry};
ghost use Rattle.ir_run.specs.Entry as entries;
ghost use Rattle.c_tree.specs.Lowered.{returned_label};

use crate::part::{Part, part_of};
use ir_run::{Stmt, Tree};
use nk_base::Memory;
use std::alloc::Global;

/// The label that a tree is.
fn label_of(tree: &Tree) -> Option<u32>
    ensures { (k : ℕ) → option_to_list result ≡ returned_label (entries.Set k (node tree.now)) }
{
    match part_of(tree) {
        Part::Leaf => None,
        Part::Number(_) => None,
        Part::Label(l) => Some(l),
        Part::One(_) => None,
        Part::Two(_, _) => None,
    }
}

/// The label that a statement puts into a cell.
fn returned(statement: &Stmt) -> Option<u32>
    ensures { option_to_list result ≡ returned_label (entry statement.now) }
{
    match statement {
        Stmt::Set(_, t) => label_of(t),
        Stmt::Store(_, _) => None,
        Stmt::Out(_) => None,
        Stmt::Branch(_, _, _, _) => None,
        Stmt::JumpCell(_) => None,
        Stmt::Jump(_) => None,
        Stmt::Mark(_) => None,
        Stmt::Halt(_) => None,
    }
}

/// The labels that calls return to, in the order of their statements. The one error is want of memory.
pub fn return_labels(alloc: Global, statements: &[Stmt]) -> Result<Vec<u32>, Memory>
    ensures { IfOk result (λ ls. ls.items ≡ flat_map returned_label (map entry statements.now)) }
{
    let mut labels = Vec::new(alloc);
    for statement in statements {
        if let Some(label) = returned(statement) {
            labels.push(label)?;
        }
    }
    Ok(labels)
}
