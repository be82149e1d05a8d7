//! The trap behind the statements.

ghost use Rattle.std.specs.Prelude.{◌≡◌, ◌++◌, [], ◌∷◌, map, if◌then◌else◌, OnOk};
ghost use Rattle.std.specs.List.{list_any};
ghost use Rattle.ir_run.specs.Entry.{entry, Mark, Halt};
ghost use Rattle.c_tree.specs.Lowered.{goes_to};

use ir_run::Stmt;
use nk_base::Memory;

/// Whether a statement branches to the label.
fn branches_to(statement: &Stmt, label: u32) -> bool
    ensures { result ≡ goes_to label (entry statement.now) }
{
    match statement {
        Stmt::Set(_, _) => false,
        Stmt::Store(_, _) => false,
        Stmt::Out(_) => false,
        Stmt::Branch(_, _, _, to) => *to == label,
        Stmt::JumpCell(_) => false,
        Stmt::Jump(_) => false,
        Stmt::Mark(_) => false,
        Stmt::Halt(_) => false,
    }
}

/// Whether one of the statements branches to the label. It takes no memory.
pub fn goes_to_label(statements: &[Stmt], label: u32) -> bool
    ensures { result ≡ list_any (goes_to label) (map entry statements.now) }
{
    statements
        .iter()
        .any(|statement| branches_to(statement, label))
}

/// Puts the trap behind the statements, where one of them goes to it: its mark, and a halt with 1.
///
/// The one error is want of memory.
pub fn push_trap(out: &mut Vec<Stmt>, trap: u32) -> Result<(), Memory>
    ensures { OnOk result (map entry out.new.items ≡ map entry out.old.items ++ (if list_any (goes_to trap) (map entry out.old.items) then Mark trap ∷ Halt 1 ∷ [] else [])) }
{
    if goes_to_label(out.as_slice(), trap) {
        out.push(Stmt::Mark(trap))?;
        out.push(Stmt::Halt(1))?;
    }
    Ok(())
}
