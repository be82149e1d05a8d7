//! Whether a derivation is legal.

ghost use Rattle.std.specs.Prelude.{◌≡◌, codes};
ghost use Rattle.nml_tree.specs.Derivation.{Derivation};
ghost use Rattle.nml_tree.specs.Legal.{is_legal};
ghost use Rattle.nml_tree.specs.Table.{table};
ghost use Rattle.nml_tree.specs.Walk.{IsWalkOf};

use crate::act::{Ask, Front, rule_action};
use nml_tree::{Deriv, Typed};

/// Whether the derivation of `instruction` that these picks and fields write is legal: on no path through its action does something happen
/// twice that may happen once, which is a write of a cell, a write of a transitory, an output, a halt, a read of the input. Two writes to a
/// storage are of one cell unless both indices are constants, once the fields are put in, and differ.
///
/// What is answered for picks and fields that write no derivation is left open. It takes no memory, and its time grows with the square of
/// what stands in the action. Each rule and each parameter is found by a search through the description, again and again: this is the
/// reference, on which no tool runs. The rule is this project's own.
pub fn legal(d: &Typed, v: &Deriv) -> bool
    ensures { (x : Derivation) → IsWalkOf (table d.now) (codes "instruction") v.now.picks.items v.now.fields.items x → result ≡ is_legal (table d.now) x }
{
    let items = d.desc.items.as_slice();
    let whole = Front {
        picks: v.picks.as_slice(),
        fields: v.fields.as_slice(),
        limit: items.len(),
    };
    let count = rule_action(
        items,
        Ask::Check(whole),
        b"instruction".as_slice(),
        whole.picks,
        whole.fields,
        whole.limit,
    );
    count == 0
}
