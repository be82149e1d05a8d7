//! Places as an action names them.

ghost use Rattle.std.specs.Prelude.{◌≡◌};

use std::marker::Model;

/// A place as an action names it, by a cell's number, by a field, or by the node of any other index.
///
/// The form is this project's own.
#[derive(Clone, Copy, Debug, PartialEq, Eq)]
pub enum At {
    Cell(u32),
    Field(u32),
    Other(u32),
}

/// A cell that an action names: its storage's number and the place in it. A storage of one cell is named by `Cell(0)`.
///
/// The form is this project's own.
#[derive(Clone, Copy, Debug, PartialEq, Eq)]
pub struct Spot {
    pub storage: u32,
    pub at: At,
}

/// One cell of a storage; `None` stands for all its cells, or for a cell that is chosen at the use.
///
/// The form is this project's own.
#[derive(Clone, Copy, Debug, PartialEq, Eq)]
pub struct Place {
    pub storage: u32,
    pub index: Option<u32>,
}

/// Cells that an action names, in order. The form is this project's own.
#[derive(Drop)]
pub struct Spots {
    list: Vec<Spot>,
}

impl Model for Spots {
    ghost use Rattle.std.specs.Prelude.{List};
    ghost use Rattle.isg_places.specs.declared.place.Spot.{Spot};

    ghost Value = { List Spot };

    ghost view = { λ x. x.list.items };
}

impl Spots {
    /// These cells.
    pub(crate) fn new(list: Vec<Spot>) -> Spots
        ensures { result ≡ list.items }
    {
        Spots { list }
    }

    /// The cells, with no copy. It takes no memory.
    pub fn as_slice(&self) -> &[Spot]
        ensures { result.now ≡ self.now }
    {
        self.list.as_slice()
    }
}
