//! Whether an instruction is legal, by the nodes of its effect.

ghost use Rattle.std.specs.Prelude.{◌≡◌, ℕ, IsTrue, List, codes, length, not, true};
ghost use Rattle.attr_eval.specs.Lawful.{act_shape, is_lawful};
ghost use Rattle.isg_legal.specs.Coarse.{NeverClashes, coarse};
ghost use Rattle.isg_nodes.specs.Written.{AllBelow, Falls, action};
ghost use Rattle.nml_tree.specs.Act.{Act};
ghost use Rattle.nml_tree.specs.Derivation.{Derivation};
ghost use Rattle.nml_tree.specs.Legal.{IsLegal, is_legal};
ghost use Rattle.nml_tree.specs.Refused.{IsTyped};
ghost use Rattle.nml_tree.specs.Table.{Table, table};
ghost use Rattle.nml_tree.specs.Value.{View};
ghost use Rattle.nml_tree.specs.Walk.{IsWalkOf};
ghost use Rattle.nml_tree.specs.Written as written;
ghost use Rattle.nml_tree.specs.declared.tree.Desc.{Desc};

use crate::tally::all;
use isg_nodes::{Fields, Node};

/// Whether the instruction with these fields whose action the nodes write out is not legal: on a path through its action something happens
/// twice that may happen once, which is a write of a cell, a write of a transitory, an output, a halt, a read of the input. Two writes to a
/// storage are of one cell unless both indices are constants, once the fields are put in, and differ.
///
/// Of nodes that write out no action of a derivation with these fields nothing is said. It takes no memory, and its time grows with the
/// square of the statements of the action. The rule is this project's own.
pub fn clashes(nodes: &[Node], effect: &[u32], fields: &Fields<'_>) -> bool
    requires falls { Falls nodes.now }
    requires within { AllBelow effect.now (length nodes.now) }
    ensures { (d : Desc) (x : Derivation) (ks : List ℕ) → IsTyped d → IsWalkOf (table d) (codes "instruction") ks fields.now x → action nodes.now effect.now ≡ written.action (table d) x → result ≡ not (is_legal (table d) x) }
{
    all(nodes, effect, fields, true, effect, None) != 0
}

/// Whether no two events of this effect can clash, whatever the fields are: where an index that isn't a written number may be any cell,
/// nothing happens twice on a path that may happen once.
///
/// Each derivation whose action the nodes write out is then legal. It takes no memory, and its time grows with the square of the statements of
/// the effect. The rule is this project's own.
pub fn never_clashes(nodes: &[Node], effect: &[u32]) -> bool
    requires falls { Falls nodes.now }
    requires within { AllBelow effect.now (length nodes.now) }
    ensures exact { (v : View) → result ≡ is_lawful v (coarse (act_shape (action nodes.now effect.now))) }
    ensures never { IsTrue result → NeverClashes (action nodes.now effect.now) }
{
    let none = Fields::new(&[], 0);
    all(nodes, effect, &none, false, effect, None) == 0
}

/// A law: a derivation in whose action no two events can clash is legal.
///
/// The rule is this project's own.
pub fn lawful_is_legal()
    ensures { (t : Table) (x : Derivation) (a : Act) → a ≡ written.action t x → NeverClashes a → IsLegal t x }
{}
