//! The type of the input.

ghost use Rattle.std.specs.Prelude.{◌≡◌, [], false, MatchOption};
ghost use Rattle.input_lines.specs.Reading.{IsInput};
ghost use Rattle.input_port.specs.Port as spec;
ghost use Rattle.input_port.specs.Port.{is_inp};
ghost use Rattle.nml_state.specs.RightTypes.{EachRight};
ghost use Rattle.nml_tree.specs.Table.{Table, Declared, entries, entry, table, type_or_none};

use nk_base::Ty;
use nml_state::type_value;
use nml_tree::{Item, PortWord, TypeExpr, Typed};

/// The type of the description's input, where it has one: of at most 32 bits. It takes no memory. The rule is this project's own.
pub fn input_type(d: &Typed) -> Option<Ty>
    ensures is { result ≡ spec.input_type (table d.now) }
    ensures input { IsInput result }
{
    first_input(d.desc.items.as_slice())
}

/// The type of the first `inp` of the items.
fn first_input(items: &[Item]) -> Option<Ty>
    requires { EachRight [] items.now }
    ensures { result ≡ spec.input_type (entries [] items.now) }
{
    for i in 0..items.len() {
        match input_port(&items[i]) {
            None => {}
            Some(ty) => return Some(type_value(&items[..i], ty)),
        }
    }
    None
}

/// The type that an `inp` writes; `None` exactly where the item is none.
fn input_port(item: &Item) -> Option<&TypeExpr>
    ensures { MatchOption result ((t : Table) → is_inp (entry t item.now).1 ≡ false) (λ e. (t : Table) → (entry t item.now).1 ≡ Declared.Inp (type_or_none t e.now)) }
{
    match item {
        Item::Port(port) => match port.word {
            PortWord::Inp(_) => Some(&port.ty),
            PortWord::Trn(_) => None,
            PortWord::Out(_) => None,
        },
        Item::Let(_, _, _, _, _) => None,
        Item::Type(_, _, _, _) => None,
        Item::Storage(_) => None,
        Item::OrRule(_) => None,
        Item::OpRule(_) => None,
        Item::ModeRule(_) => None,
    }
}
