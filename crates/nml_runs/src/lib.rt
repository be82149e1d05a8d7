//! Laws of bounded runs: each has an outcome, and on a checked description no other.
#![tactic(auto)]

ghost use Rattle.std.specs.Prelude.{◌≡◌, ℕ, List, Option};
ghost use Rattle.nml_tree.specs.declared.tree.Desc.{Desc};
ghost use Rattle.nml_tree.specs.Table.{Table, table};
ghost use Rattle.nml_tree.specs.Machine.{Found, IsFound, Now, RunOutcome, Runs};
ghost use Rattle.nml_tree.specs.Refused.{IsChecked};

/// A law: it can't be that nothing is found at a place: no word, a word that is no instruction, or an instruction.
///
/// The rule is this project's own.
pub fn some_found()
    ensures { (t : Table) (word : Option ℕ) → ((f : Found) → IsFound t word f → ⊥) → ⊥ }
{}

/// A law: it can't be that a run of at most so many steps has no outcome. It holds of any description, checked or not.
///
/// The rule is this project's own.
pub fn some_outcome()
    ensures { (t : Table) (words : List ℕ) (n : ℕ) (s : Now) → ((o : RunOutcome) → Runs t words n s o → ⊥) → ⊥ }
{}

/// A law: on a checked description a run of at most so many steps has one outcome at most.
///
/// The rule is this project's own.
pub fn one_outcome()
    ensures { (d : Desc) (words : List ℕ) (n : ℕ) (s : Now) (o p : RunOutcome) → IsChecked d → Runs (table d) words n s o → Runs (table d) words n s p → o ≡ p }
{}
