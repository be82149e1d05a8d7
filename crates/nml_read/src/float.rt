//! Whether a description has a type `float`.

ghost use Rattle.std.specs.Prelude.{flat_map, map};
ghost use Rattle.nml_tree.specs.Floats.{float_place, float_places, item_types, par_types};
ghost use Rattle.nml_grammar.specs.Trees.{IsFirst};

use nml_tree::{Desc, Item, Par, Pars, TypeExpr};

/// The place of the first type `float`, where the description has one.
pub fn first_float(desc: &Desc) -> Option<u32>
    ensures { IsFirst (float_places desc.now) result }
{
    for item in desc.items.as_slice() {
        if let Some(at) = item_float(item) {
            return Some(at);
        }
    }
    None
}

/// The place of the first type `float`, where the item has one.
fn item_float(item: &Item) -> Option<u32>
    ensures { IsFirst (flat_map float_place (item_types item.now)) result }
{
    match item {
        Item::Type(_, _, _, ty) => type_float(ty),
        Item::Storage(storage) => type_float(&storage.ty),
        Item::Port(port) => type_float(&port.ty),
        Item::OpRule(rule) => pars_float(&rule.pars),
        Item::ModeRule(rule) => pars_float(&rule.pars),
        Item::Let(_, _, _, _, _) | Item::OrRule(_) => None,
    }
}

/// The place of the first type `float`, where a parameter has one.
fn pars_float(pars: &Option<Pars>) -> Option<u32>
    ensures { IsFirst (flat_map float_place (par_types pars.now)) result }
{
    let Some(pars) = pars else {
        return None;
    };
    if let Some(at) = type_float(&pars.first.ty) {
        return Some(at);
    }
    further_float(pars.rest.as_slice())
}

/// The place of the first type `float`, where one of the further parameters has one.
fn further_float(pars: &[(u32, Par)]) -> Option<u32>
    ensures { IsFirst (flat_map float_place (map (λ (comma, p). p.ty) pars.now)) result }
{
    for (_, par) in pars {
        if let Some(at) = type_float(&par.ty) {
            return Some(at);
        }
    }
    None
}

/// The place of the type, where it is `float`.
fn type_float(ty: &TypeExpr) -> Option<u32>
    ensures { IsFirst (float_place ty.now) result }
{
    match ty {
        TypeExpr::Float(at, _, _, _, _, _) => Some(*at),
        _ => None,
    }
}
