//! One cell that an action names.

ghost use Rattle.std.specs.Prelude.{◌≡◌, ◌<◌, [], ◌∷◌, OnOk, length};
ghost use Rattle.isg_nodes.specs.Written.{Falls, term};
ghost use Rattle.isg_places.specs.Spots.{Adds, IsAt, IsPlaceOf, index};

use crate::place::{At, Spot};
use crate::term::{field_number, number_of};
use isg_nodes::Node;
use nk_base::Memory;

/// The place of an index.
fn place_at(nodes: &[Node], i: u32) -> At
    requires falls { Falls nodes.now }
    requires within { i < length nodes.now }
    ensures place { IsAt nodes.now result }
    ensures index { index nodes.now result ≡ term nodes.now i }
{
    match field_number(nodes, i) {
        Some(n) => At::Field(n),
        None => match number_of(nodes, i) {
            Some(z) => number_place(z, i),
            None => At::Other(i),
        },
    }
}

/// The cell of this number, or else the place of node `i`.
fn number_place(z: i128, i: u32) -> At
    ensures { IsPlaceOf z i result }
{
    match u32::try_from(z) {
        Ok(k) => At::Cell(k),
        Err(_) => At::Other(i),
    }
}

/// Adds the cell of this storage and this index.
pub fn add_spot(nodes: &[Node], storage: u32, i: u32, spots: &mut Vec<Spot>) -> Result<(), Memory>
    requires falls { Falls nodes.now }
    requires within { i < length nodes.now }
    ensures { OnOk result (Adds nodes.now spots.old.items spots.new.items ((storage, term nodes.now i) ∷ [])) }
{
    let at = place_at(nodes, i);
    spots.push(Spot { storage, at })?;
    Ok(())
}
