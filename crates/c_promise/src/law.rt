//! Laws of the statements of a program.

ghost use Rattle.std.specs.Prelude.{◌≡◌, ◌≢◌, ℕ, List, Some, slice_get, true};
ghost use Rattle.ir_run.specs.Entry.{Entry, Mark};
ghost use Rattle.ir_run.specs.Value.{State};
ghost use Rattle.ir_run.specs.Runs.{run};
ghost use Rattle.ir_run.specs.Run.{place_of, step};
ghost use Rattle.ir_run.specs.Promise.{is_promised};
ghost use Rattle.ir_run.specs.Shifts.{AllShift};
ghost use Rattle.c_tree.specs.Program.{Program};
ghost use Rattle.c_tree.specs.Lowered.{program_entries, lowered};
ghost use Rattle.c_lowered.specs.Sound.{Sound};
ghost use Rattle.ir_run.specs.Strict as strict;
ghost use Rattle.ir_run.specs.Strict.{broken};

/// Where statements break no promise, the machine that watches them does what the machine does.
pub fn run_lax()
    ensures { (arrays : strict.Arrays) (entries : List Entry) (n m : ℕ) (s : State) → (run (strict.step arrays entries n) m s).stop ≢ broken → run (strict.step arrays entries n) m s ≡ run (step entries n) m s }
{}

/// Each label is marked once.
pub fn label_once()
    ensures { (p : Program) (n k l : ℕ) → slice_get (program_entries p n) k ≡ Some (Mark l) → place_of (program_entries p n) l ≡ Some k }
{}

/// The statements of a sound program keep what single statements promise: shifts by 1 to n-1, the input and labels only as whole trees of a Set,
/// halts with the code 0 or 1, no Set and no array on a home or a temporary, and each return label's mark directly behind a jump.
pub fn statements_keep_their_promises()
    ensures { (p : Program) (n : ℕ) → Sound p n → is_promised 1 (lowered p n) n ≡ true }
{}

/// No tree of the statements shifts by the numbers' width or more.
pub fn no_shift_is_too_wide()
    ensures { (p : Program) (n : ℕ) → Sound p n → AllShift n (program_entries p n) }
{}
