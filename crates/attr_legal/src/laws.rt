//! What legality comes to, by how often each thing happens.

ghost use Rattle.std.specs.Prelude.{◌≡◌, ◌==◌};
ghost use Rattle.attr_eval.specs.Lawful.{Shape, is_lawful};
ghost use Rattle.attr_legal.specs.Tally.{checks, tally};
ghost use Rattle.nml_tree.specs.Value.{View};

/// A law: no two events that meet clash exactly where nothing that happens is met twice on a path.
///
/// The rule is this project's own.
pub fn lawful_by_tallies()
    ensures { (v : View) (s : Shape) → (tally (checks v s) s == 0) ≡ is_lawful v s }
{}
