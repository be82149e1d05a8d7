//! What every description declares.
ghost use Rattle.std.specs.Prelude.{◌≡◌, MatchOption};
ghost use Rattle.nml_tree.specs.NameFault.{is_among};
ghost use Rattle.nml_tree.specs.Refused.{IsFirstRoot, Lacks};
ghost use Rattle.nml_tree.specs.Table.{table};
ghost use Rattle.nml_tree.specs.Uses.{declares};
ghost use Rattle.nml_tree.specs.declared.fault.Root as roots;
ghost use Rattle.std.specs.Prelude.{map};

use crate::names::declared_name;
use nml_tree::{Desc, Item, Root};

/// Whether an item declares the name.
fn declare(items: &[Item], name: &[u8]) -> bool
    ensures { result ≡ is_among name.now (map declares items.now) }
{
    for item in items {
        if name == declared_name(item).text.as_bytes() {
            return true;
        }
    }
    false
}

/// What of `instruction` and `PC` is not declared, `instruction` first; `None` where both are. It takes no memory.
///
/// The rule is this project's own.
pub fn first_lack(d: &Desc) -> Option<Root>
    ensures { MatchOption result ((what : roots.Root) → Lacks (table d.now) what → ⊥) (IsFirstRoot (table d.now)) }
{
    let items = d.items.as_slice();
    if !declare(items, b"instruction".as_slice()) {
        return Some(Root::Instruction);
    }
    if !declare(items, b"PC".as_slice()) {
        return Some(Root::Pc);
    }
    None
}
