//! Runs of a machine, step by step.

ghost use Rattle.std.specs.Option.{option_to_list};
ghost use Rattle.std.specs.Prelude.{◌≡◌, ◌+◌, Bool, None, List, Option, ℕ, ℤ};
ghost use Rattle.bit_sim.specs.Simulator.{IsStep, Simulator, at, turn_told};
ghost use Rattle.bit_sim.specs.declared.step.Step.TheVariants as step;
ghost use Rattle.bit_sim.specs.declared.step.Step.{Step};
ghost use Rattle.nml_tree.specs.Machine.{Ends, RunOutcome, Runs, Stop, left, next, put_before};
ghost use Rattle.nml_tree.specs.Table.{Table};

/// A law: a run whose first step goes on is that step and a run of one step fewer from there, its outputs behind the step's.
pub fn longer_run()
    ensures { (t : Table) (words : List ℕ) (old new : Simulator) (out : Option ℤ) (took : Bool) (input : List ℤ) (n : ℕ) (o : RunOutcome) → old.halted ≡ None
        → IsStep t words (next input) old new (step.Went out took) → Runs t words n (at new.cells (left took input)) o
        → Runs t words (n + 1) (at old.cells input) (put_before (option_to_list out) o) }
{}

/// A law: a run whose first step stops ends with it.
pub fn ended_run()
    ensures { (t : Table) (words : List ℕ) (old new : Simulator) (told : Step) (input out : List ℤ) (stop : Stop) (n : ℕ) → old.halted ≡ None
        → IsStep t words (next input) old new told → turn_told told new.cells input ≡ Ends out stop
        → Runs t words (n + 1) (at old.cells input) (record { out = out; stop = stop }) }
{}
