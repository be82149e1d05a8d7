//! What is asked of a rule.

ghost use Rattle.std.specs.Prelude.{◌≡◌, IfOk, unwrap_or};
ghost use Rattle.nml_known.specs.Known.{item_number};
ghost use Rattle.shape_count.specs.Weights as spec;

use indexmap::IndexMap;
use nk_base::{Memory, Text};
use nml_known::Names;

/// The rule that the item of this number declares, and how often the action and the value of a derivation of it count.
#[derive(Clone, Copy, PartialEq, Eq, Hash)]
pub struct Key {
    pub number: usize,
    pub action: u32,
    pub value: u32,
}

/// What is known of the key.
pub fn look(known: &IndexMap<Key, u32>, key: Key) -> Option<u32>
    ensures { result ≡ spec.known_best known.now.entries key }
{
    match known.get(&key) {
        None => None,
        Some(best) => Some(*best),
    }
}

/// What is known of the key; where it isn't known, the key is put onto the open ones.
pub fn ask(known: &IndexMap<Key, u32>, open: &mut Vec<Key>, key: Key) -> Result<Option<u32>, Memory>
    ensures { IfOk result (λ o. o ≡ spec.known_best known.now.entries key) }
{
    let found = look(known, key);
    if found.is_none() {
        open.push(key)?;
    }
    Ok(found)
}

/// The number of the item that declares the name, 0 where none does.
pub fn number_of(names: &Names<'_>, name: &Text) -> usize
    ensures { result ≡ unwrap_or (item_number names.now name.now) 0 }
{
    match names.number(name) {
        None => 0,
        Some(n) => n,
    }
}
