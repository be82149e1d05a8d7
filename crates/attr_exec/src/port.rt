//! The type of the `out`, and the number of a storage by its name.

ghost use Rattle.std.specs.Prelude.{◌≡◌, [], ◌∷◌, true, false, MatchOption};
ghost use Rattle.std.specs.List.{list_any};
ghost use Rattle.attr_exec.specs.Does.{is_out};
ghost use Rattle.nml_state.specs.RightTypes.{EachRight};
ghost use Rattle.nml_tree.specs.Exec as spec;
ghost use Rattle.nml_tree.specs.Table.{Table, declared, entries, entry, type_or_none};

use crate::count::count_storages;
use nk_base::Ty;
use nml_state::{find, type_value};
use nml_tree::{Item, PortWord, TypeExpr};

/// The type of the first `out` that the items declare; that of a `bool` where there is none. It takes no memory. The rule is this
/// project's own.
pub fn out_type(items: &[Item]) -> Ty
    requires { EachRight [] items.now }
    ensures { result ≡ spec.out_type (entries [] items.now) }
{
    for i in 0..items.len() {
        match out_port(&items[i]) {
            None => {}
            Some(ty) => return type_value(&items[..i], ty),
        }
    }
    Ty::Bool
}

/// The type that an `out` writes; `None` exactly where the item is none.
fn out_port(item: &Item) -> Option<&TypeExpr>
    ensures { MatchOption result ((t : Table) → is_out (entry t item.now) ≡ false) (λ e. (t : Table) → (is_out (entry t item.now) ≡ true) × (spec.out_type (entry t item.now ∷ []) ≡ type_or_none t e.now)) }
{
    match item {
        Item::Port(port) => match port.word {
            PortWord::Out(_) => Some(&port.ty),
            PortWord::Trn(_) => None,
            PortWord::Inp(_) => None,
        },
        Item::Let(_, _, _, _, _) => None,
        Item::Type(_, _, _, _) => None,
        Item::Storage(_) => None,
        Item::OrRule(_) => None,
        Item::OpRule(_) => None,
        Item::ModeRule(_) => None,
    }
}

/// The number of the storage of this name; 0 where the name is that of none. It takes no memory. The rule is this project's own.
pub fn storage_number(items: &[Item], name: &[u8]) -> usize
    ensures { result ≡ spec.storage_number (declared (entries [] items.now) name.now) }
{
    match find(items, name) {
        None => 0,
        Some((before, item)) => match item {
            Item::Storage(_) => count_storages(before),
            Item::Let(_, _, _, _, _) => 0,
            Item::Type(_, _, _, _) => 0,
            Item::Port(port) => match port.word {
                PortWord::Trn(_) => 0,
                PortWord::Inp(_) => 0,
                PortWord::Out(_) => 0,
            },
            Item::OrRule(_) => 0,
            Item::OpRule(_) => 0,
            Item::ModeRule(_) => 0,
        },
    }
}
