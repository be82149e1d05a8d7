//! What the definitions of values and of widths come to.
ghost use Rattle.std.specs.Prelude.{◌≡◌, ℕ, true};
ghost use Rattle.nml_tree.specs.declared.tree.Desc.{Desc};
ghost use Rattle.nml_tree.specs.Table.{Text, Rule, declared, table};
ghost use Rattle.nml_tree.specs.Derivation.{Derivation, Arguments, Compose, IsDerivation, fields, fields_of};
ghost use Rattle.nml_widths.specs.Fitting.{EachValue, AreOfTypes, StandAt, Each, Everywhere, Sound, PlacesBelow, Fits};
ghost use Rattle.nml_tree.specs.Refused.{IsFreeBelow};
ghost use Rattle.nml_tree.specs.TypeFault.{is_rule_of};
ghost use Rattle.nml_tree.specs.Value.{View, value};
ghost use Rattle.nml_tree.specs.Worth.{rule_scope, rule_worth};
ghost use Rattle.nml_tree.specs.Written.{arguments, written};

/// A law: in a description whose names, types and widths are right the value of each expression of an action fits its width, its
/// cap and 128 bits, and an index is below its storage's size. So does the value of a mode fit what the mode is worth.
///
/// The cells, the transitories and the input are numbers of their types, and the derivation's fields stand in the view from the
/// place n on. The widths are this project's own; docs/LANGUAGES.md states them.
pub fn widths()
    ensures action { (d : Desc) (v : View) (name : Text) (rule : Rule) (args : Arguments) (n : ℕ) → IsFreeBelow 8 d → AreOfTypes (table d) v
        → IsDerivation (table d) name (Compose rule args) → StandAt v.fields n (fields_of args)
        → Each (Everywhere (Sound (rule_scope (table d) rule) (arguments (table d) n args) v)) rule.action
        × PlacesBelow (rule_scope (table d) rule) (arguments (table d) n args) v rule.action
        × EachValue (Everywhere (Sound (rule_scope (table d) rule) (arguments (table d) n args) v)) rule.value }
    ensures mode { (d : Desc) (v : View) (name : Text) (x : Derivation) (n : ℕ) → IsFreeBelow 8 d → AreOfTypes (table d) v
        → IsDerivation (table d) name x → StandAt v.fields n (fields x) → is_rule_of true (declared (table d) name) ≡ true
        → Fits (rule_worth (table d) name) (value v (written (table d) n x).value) }
{}
