//! What a name is where an action or a value is written out.

ghost use Rattle.std.specs.Prelude.{◌≡◌, Option, option_map};
ghost use Rattle.nml_known.specs.Known.{known};
ghost use Rattle.nml_tree.specs.Table.{Declared};
ghost use Rattle.shape_count.specs.Sizes as spec;

use indexmap::IndexMap;
use nk_base::Text;
use nml_known::{Known, Names};

/// What a name is.
#[derive(Clone, Copy)]
pub enum Found {
    /// The parameter of this place, from 0.
    Parameter(usize),
    /// A storage of several cells.
    Wide,
    /// Anything else.
    Leaf,
}

/// The names of a description, and those of a rule's parameters with their places.
#[derive(Clone, Copy)]
pub struct Scope<'a> {
    pub names: &'a Names<'a>,
    pub places: &'a IndexMap<Text, usize>,
}

/// What a declared name is.
fn found_declared(k: Option<Known>) -> Found
    ensures { (d : Option Declared) → k ≡ option_map known d → result ≡ spec.found_declared d }
{
    match k {
        Some(Known::Storage(size, _)) => { if size == 1 { Found::Leaf } else { Found::Wide } }
        _ => Found::Leaf,
    }
}

impl<'a> Scope<'a> {
    /// What the name is.
    pub fn find(&self, name: &Text) -> Found
        ensures { result ≡ spec.found self.now.names.now self.now.places.now.entries name.now }
    {
        match self.places.get(name) {
            None => found_declared(self.names.declared(name)),
            Some(place) => Found::Parameter(*place),
        }
    }
}
