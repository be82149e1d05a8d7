//! Laws of what stands beside the statements.

ghost use Rattle.std.specs.Prelude.{◌≡◌, ℕ};
ghost use Rattle.c_tree.specs.Program.{Program};
ghost use Rattle.c_tree.specs.Lowered as lowered;
ghost use Rattle.c_homes.specs.Places.{homes_from, start_from};

/// The homes of a program, and what its cells hold at the start, are those of its statements, its arrays and its globals' values.
pub fn homes_stand_beside_statements()
    ensures homes { (p : Program) (n : ℕ) → homes_from (lowered.first_constant p) (lowered.arrays p) (lowered.program_entries p n) n ≡ lowered.homes p n }
    ensures start { (p : Program) (n : ℕ) → start_from (lowered.initial_among 0 p.globals) (lowered.homes p n) n ≡ lowered.start p n }
{}
