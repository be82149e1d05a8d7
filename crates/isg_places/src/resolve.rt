//! The cell that a spot names.

ghost use Rattle.std.specs.Prelude.{◌≡◌, ℕ, List, codes, is_some, length, option_map};
ghost use Rattle.attr_eval.specs.Alone.{alone};
ghost use Rattle.isg_nodes.specs.Narrow.{IsNarrow};
ghost use Rattle.isg_nodes.specs.Written.{Falls};
ghost use Rattle.isg_places.specs.Constant.{constant, within_32};
ghost use Rattle.isg_places.specs.Places.{IsNamed};
ghost use Rattle.isg_places.specs.Spots.{IsThere, index, named};
ghost use Rattle.nml_tree.specs.Derivation.{Derivation};
ghost use Rattle.nml_tree.specs.Legal.{is_constant};
ghost use Rattle.nml_tree.specs.Refused.{IsTyped};
ghost use Rattle.nml_tree.specs.Table.{table};
ghost use Rattle.nml_tree.specs.Walk.{IsWalkOf};
ghost use Rattle.nml_tree.specs.Written.{action};
ghost use Rattle.nml_tree.specs.declared.tree.Desc.{Desc};

use crate::constant::constant_at;
use crate::place::{At, Spot};
use isg_nodes::{Fields, Node};

/// The number of the cell that the spot names with these fields; `None` exactly where its index reads a storage, a transitory or the input.
///
/// The number is the index without its sign, or 2^32 - 1 where that is more. It says the number wherever 128 bits hold the value of each
/// expression in the index, as they do for each cell that an instruction names of a description in which all is right. It takes no memory.
/// The rule is this project's own.
pub fn cell(nodes: &[Node], spot: Spot, fields: &Fields<'_>) -> Option<u32>
    requires falls { Falls nodes.now }
    requires there { IsThere nodes.now spot.at }
    ensures some { is_some result ≡ is_constant (index nodes.now spot.at) }
    ensures cell { IsNarrow (alone fields.now) (index nodes.now spot.at) → result ≡ option_map within_32 (constant fields.now (index nodes.now spot.at)) }
    ensures typed { (d : Desc) (x : Derivation) (ks : List ℕ) → IsTyped d → IsWalkOf (table d) (codes "instruction") ks fields.now x → IsNamed (action (table d) x) (named nodes.now spot)
        → result ≡ option_map within_32 (constant fields.now (index nodes.now spot.at)) }
{
    match spot.at {
        At::Cell(k) => Some(k),
        At::Field(n) => Some(within_32(fields.number(n))),
        At::Other(i) => {
            let z = constant_at(nodes, i, fields)?;
            Some(within_32(z))
        }
    }
}

/// The number without its sign, or the greatest of 32 bits.
fn within_32(z: i128) -> u32
    ensures { result ≡ within_32 z }
{
    match u32::try_from(z.unsigned_abs()) {
        Ok(k) => k,
        Err(_) => u32::MAX,
    }
}
