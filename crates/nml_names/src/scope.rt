//! What is known where an item stands.
ghost use Rattle.std.specs.Prelude.{◌≡◌, ◌∷◌, []};
ghost use Rattle.nml_names.specs.Found as spec;
ghost use Rattle.nml_names.specs.Found.{met};

use crate::names::Declaration;
use crate::noting::note;
use indexmap::{IndexMap, IndexSet};
use nk_base::Text;
use nml_tree::Name;

/// What is known in an item: the names of all items, those of its parameters, and its own number.
#[derive(Clone, Copy)]
pub struct Scope<'a> {
    pub names: &'a IndexMap<Text, Declaration>,
    pub pars: &'a IndexSet<Text>,
    pub number: usize,
}

/// Whether the name is known here.
fn is_found(s: &Scope<'_>, name: &Text) -> bool
    ensures { result ≡ spec.is_found s.now name.now }
{
    if s.pars.contains(name) {
        return true;
    }
    match s.names.get(name) {
        None => false,
        Some(found) => found.first < s.number || found.late,
    }
}

/// Notes the name where it isn't known.
pub fn name(s: &Scope<'_>, name: &Name, found: Option<u32>) -> Option<u32>
    ensures { result ≡ met (spec.is_found s.now) found (name.now ∷ []) }
{
    note(found, !is_found(s, &name.text), name.at)
}
