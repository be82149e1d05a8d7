//! Laws of the statements of a program.

ghost use Rattle.std.specs.Prelude.{◌≡◌, ◌≤◌, ℕ};
ghost use Rattle.ir_run.specs.Promise.{RunsSafely};
ghost use Rattle.c_tree.specs.Program.{Program};
ghost use Rattle.c_tree.specs.Lowered.{lowered};
ghost use Rattle.c_tree.specs.Counts.{data_of};
ghost use Rattle.c_tree.specs.AgreeIr.{AgreeIr};
ghost use Rattle.c_lowered.specs.Sound.{Sound};

/// The statements of a program print and stop as the program does, for every bound on both sides, where they have at most
/// 65,536 cells.
pub fn statements_agree_with_the_program()
    ensures { (p : Program) (n : ℕ) → Sound p n → data_of p n ≤ 65536 → AgreeIr (lowered p n) p n }
{}

/// No run of the statements of a program breaks a promise, where they have at most 65,536 cells.
pub fn no_run_breaks_a_promise()
    ensures { (p : Program) (n : ℕ) → Sound p n → data_of p n ≤ 65536 → RunsSafely (lowered p n) n }
{}
