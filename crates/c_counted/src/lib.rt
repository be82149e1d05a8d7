//! The cells of a program's lowering, counted on its terms and commands alone.
#![tactic(auto)]

ghost use Rattle.std.specs.Prelude.{◌≡◌, ℕ};
ghost use Rattle.c_tree.specs.Program.{Program};
ghost use Rattle.c_tree.specs.Lowered.{lowered};
ghost use Rattle.c_tree.specs.Counts.{data_of};
ghost use Rattle.c_lowered.specs.Sound.{Sound};
ghost use Rattle.c_counted.specs.Total.{counted};

/// The layout has as many cells as are counted of a program.
pub fn layout_has_the_cells()
    ensures { (p : Program) (n : ℕ) → (lowered p n).cells ≡ data_of p n }
{}

/// What is counted without any statement is what is counted of the statements.
pub fn cells_are_counted()
    ensures { (p : Program) (n : ℕ) → Sound p n → counted p n ≡ data_of p n }
{}
