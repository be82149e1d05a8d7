//! A machine with a stack of frames that does what a program means: what an evaluator without recursion is written after.
#![tactic(auto)]

ghost use Rattle.std.specs.Prelude.{◌≡◌, ℕ, ℤ, List};
ghost use Rattle.c_tree.specs.Program.{Program};
ghost use Rattle.c_tree.specs.Meaning.{outcome};
ghost use Rattle.c_frames.specs.Small.{IsSmall, IsSmallProgram};
ghost use Rattle.c_frames.specs.Steps.{Config, Goes, begin, follow, step, Follows, HasStopped, ahead_config, ahead_move};

/// After any number of steps the machine has stopped with the program's outcome, or it stands where the rest of its run
/// is that outcome.
pub fn machine_follows()
    ensures { (p : Program) (n : ℕ) (input : List ℤ) (turns steps : ℕ) → Follows p n (outcome p n input turns) (follow p n steps (begin p n input turns)) }
{}

/// The machine stops after some number of steps, on any input and with any number of turns.
pub fn machine_stops()
    ensures { (p : Program) (n : ℕ) (input : List ℤ) (turns : ℕ) → (steps : ℕ) × HasStopped p n (follow p n steps (begin p n input turns)) }
{}

/// A step does the same whatever was put out before.
pub fn outputs_go_ahead()
    ensures { (p : Program) (n : ℕ) (zs : List ℤ) (c : Config p n) → step p n (ahead_config p n zs c) ≡ ahead_move p n zs (step p n c) }
{}

/// Where a program's numbers fit 64 bits with a sign and its amounts of shifts are below 63, so do those that a machine has
/// in hand, one step after the other.
pub fn numbers_stay_small()
    ensures { (p : Program) (n : ℕ) → IsSmallProgram p → (c d : Config p n) → IsSmall p n c → step p n c ≡ Goes d → IsSmall p n d }
{}
