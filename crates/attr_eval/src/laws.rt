//! What the definition of legality comes to.

ghost use Rattle.attr_eval.specs.Lawful.{act_shape, is_lawful};
ghost use Rattle.nml_tree.specs.Derivation.{Derivation};
ghost use Rattle.nml_tree.specs.Legal.{fields_alone, is_legal};
ghost use Rattle.nml_tree.specs.Table.{Table};
ghost use Rattle.nml_tree.specs.Written.{action};
ghost use Rattle.std.specs.Prelude.{◌≡◌};

/// A law: every path through an action is legal exactly where no two events clash that stand on one path, which is asked for each pair
/// with no list of the paths.
///
/// The events on the two sides of an `if` don't meet; all others do. The rule is this project's own.
pub fn legal_by_pairs()
    ensures { (t : Table) (x : Derivation) → is_lawful (fields_alone x) (act_shape (action t x)) ≡ is_legal t x }
{}
