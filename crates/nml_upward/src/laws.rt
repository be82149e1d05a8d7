//! Laws of the rules of a description in which names, types and widths are right.

ghost use Rattle.std.specs.Prelude.{ℕ, List};
ghost use Rattle.nml_names.specs.Below.{graph};
ghost use Rattle.graphs.specs.Graphs.{IsOrder};
ghost use Rattle.nml_tree.specs.Derivation.{Derivation, IsDerivation};
ghost use Rattle.nml_tree.specs.Refused.{IsFreeBelow};
ghost use Rattle.nml_tree.specs.Table.{table};
ghost use Rattle.nml_tree.specs.declared.tree.Desc.{Desc};
ghost use Rattle.nml_upward.specs.Upward.{IsRule};

/// In a description without faults of names, cycles, typing and width each rule has a derivation. It does nothing when it runs.
pub fn each_rule_has_a_derivation()
    ensures { (d : Desc) (order : List ℕ) (name : List ℕ) → IsFreeBelow 8 d → IsOrder (graph d.items) order → IsRule (table d) name → (x : Derivation) × IsDerivation (table d) name x }
{}
