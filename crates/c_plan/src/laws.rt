//! The names of functions don't matter.

ghost use Rattle.std.specs.Prelude.{◌≡◌, ℕ};
ghost use Rattle.c_tree.specs.Program.{Program};
ghost use Rattle.c_tree.specs.Lowered.{lowered};
ghost use Rattle.c_tree.specs.Counts.{data_of};
ghost use Rattle.c_counted.specs.Total.{counted};
ghost use Rattle.c_plan.specs.Plan.{unnamed_program};

/// A program's statements, cells and initial values are those of the program without its functions' names.
pub fn lowered_without_names()
    ensures { (p : Program) (n : ℕ) → lowered (unnamed_program p) n ≡ lowered p n }
{}

/// It has as many cells.
pub fn cells_without_names()
    ensures { (p : Program) (n : ℕ) → data_of (unnamed_program p) n ≡ data_of p n }
{}

/// As many cells are counted of it without any statement.
pub fn count_without_names()
    ensures { (p : Program) (n : ℕ) → counted (unnamed_program p) n ≡ counted p n }
{}
