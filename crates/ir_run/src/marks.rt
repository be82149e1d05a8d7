//! Where the marks of labels are.

ghost use Rattle.std.specs.Prelude.{◌≡◌, ◌+◌, ℕ, map, nat_eq, cond, None, Some, OnOk, IfOk};
ghost use Rattle.std.specs.Option.{option_or};
ghost use Rattle.ir_run.specs.Entry.{entry};
ghost use Rattle.ir_run.specs.Run.{is_mark};
ghost use Rattle.ir_run.specs.Stands.{found, AreMarks};

use crate::statement::Stmt;
use indexmap::IndexMap;
use nk_base::Memory;
use std::alloc::Global;

/// Adds the label with its place. A label that is there stays as it is.
fn add(marks: &mut IndexMap<u64, usize>, label: u32, at: usize) -> Result<(), Memory>
    ensures { OnOk result ((l : ℕ) → found marks.new.entries l ≡ option_or (found marks.old.entries l) (cond (nat_eq l label) (Some at) None)) }
{
    let label = u64::from(label);
    if !marks.contains_key(&label) {
        marks.insert(label, at)?;
    }
    Ok(())
}

/// Adds the label of the statement at this place, where it is a mark.
fn note(marks: &mut IndexMap<u64, usize>, statement: &Stmt, at: usize) -> Result<(), Memory>
    ensures { OnOk result ((l : ℕ) → found marks.new.entries l ≡ option_or (found marks.old.entries l) (cond (is_mark (entry statement.now) l) (Some at) None)) }
{
    match statement {
        Stmt::Set(_, _) => Ok(()),
        Stmt::Store(_, _) => Ok(()),
        Stmt::Out(_) => Ok(()),
        Stmt::Branch(_, _, _, _) => Ok(()),
        Stmt::JumpCell(_) => Ok(()),
        Stmt::Jump(_) => Ok(()),
        Stmt::Mark(label) => add(marks, *label, at),
        Stmt::Halt(_) => Ok(()),
    }
}

/// The place of each label's first mark. The one error is want of memory.
pub fn marks_of(alloc: Global, statements: &[Stmt]) -> Result<IndexMap<u64, usize>, Memory>
    ensures { IfOk result (λ m. AreMarks m.entries (map entry statements.now)) }
{
    let mut marks = IndexMap::new(alloc);
    for (at, statement) in statements.iter().enumerate() {
        note(&mut marks, statement, at)?;
    }
    Ok(marks)
}
