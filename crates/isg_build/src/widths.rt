//! The bits of a word and of PC.

ghost use Rattle.std.specs.Prelude.{◌≡◌, [], IfOk, MatchOption, None, Some, codes};
ghost use Rattle.isg_build.specs.Widths.{ArePcBits, AreWordBits};
ghost use Rattle.nml_shape.specs.Shown.{AreAllShapes, numbers_in};
ghost use Rattle.nml_tree.specs.Refused.{IsTyped};
ghost use Rattle.nml_tree.specs.Table.{declared, entries, entry, table};
ghost use Rattle.shape_table.specs.Meet.{HasTypes};

use attr_eval::image;
use nk_base::Memory;
use nml_shape::Shape;
use nml_state::{find, type_value};
use nml_tree::{Deriv, Desc, Item, PortWord, Typed};
use shape_table::numbers_of;
use std::alloc::Global;

/// How many bits a word has: those of an instruction of the first shape. Where there is none, any number would do.
pub fn word_bits(alloc: Global, d: &Typed, shapes: &[Shape]) -> Result<u32, Memory>
    requires { AreAllShapes d.now shapes.now }
    ensures { IfOk result (λ n. AreWordBits d.now n) }
{
    match shapes.first() {
        None => Ok(8),
        Some(shape) => {
            let _ = &d.desc;
            let x = instruction(alloc, shape)?;
            Ok(image(d, &x).width)
        }
    }
}

/// The instruction of the shape whose fields have no bits but the shape's own.
fn instruction(alloc: Global, shape: &Shape) -> Result<Deriv, Memory>
    requires { HasTypes shape.now }
    ensures { IfOk result (λ v. (v.picks.items ≡ shape.now.picks.items) × (v.fields.items ≡ numbers_in shape.now.value shape.now.fields.items)) }
{
    Ok(Deriv {
        picks: shape.picks.clone()?,
        fields: numbers_of(alloc, shape.value, shape.fields.as_slice())?,
    })
}

/// How many bits PC has.
pub fn pc_bits(d: &Desc) -> u32
    requires { IsTyped d.now }
    ensures { ArePcBits d.now result }
{
    match pc_item(d) {
        None => 0,
        Some((before, item)) => match item {
            Item::Storage(storage) => type_value(before, &storage.ty).width(),
            Item::Let(_, _, _, _, _) => 0,
            Item::Type(_, _, _, _) => 0,
            Item::Port(port) => match port.word {
                PortWord::Trn(_) => 0,
                PortWord::Inp(_) => 0,
                PortWord::Out(_) => 0,
            },
            Item::OrRule(_) => 0,
            Item::OpRule(_) => 0,
            Item::ModeRule(_) => 0,
        },
    }
}

/// The item that declares PC, and those before it.
fn pc_item(d: &Desc) -> Option<(&[Item], &Item)>
    ensures { MatchOption result (declared (table d.now) (codes "PC") ≡ None) (λ x. declared (table d.now) (codes "PC") ≡ Some (entry (entries [] x.0.now) x.1.now).1) }
{
    find(d.items.as_slice(), b"PC".as_slice())
}
