//! Lists of numbers by a key.

ghost use Rattle.std.specs.Prelude.{◌≡◌, ◌<◌, ◌++◌, ◌∷◌, [], OnOk, Some, if◌then◌else◌, length, slice_get};
ghost use Rattle.indexmap.specs.IndexMap.{keys};
ghost use Rattle.indexmap.specs.IndexSet.{insert_key};
ghost use Rattle.isg_lists.specs.Numbers.{list_at};

use indexmap::IndexMap;
use nk_base::Memory;
use nml_shape::Shape;
use std::alloc::Global;
use std::hash::Hash;

/// The shape of this number.
pub fn shape_at(shapes: &[Shape], i: usize) -> &Shape
    requires { i < length shapes.now }
    ensures { slice_get shapes.now i ≡ Some result.now }
{
    &shapes[i]
}

/// Appends the number to the list of the key. The one error is want of memory.
pub fn add<K: Copy + Eq + Hash + Drop>(
    alloc: Global,
    lists: &mut IndexMap<K, Vec<u32>>,
    key: K,
    n: u32,
) -> Result<(), Memory>
    ensures keys { OnOk result (keys lists.new ≡ insert_key K.eq (keys lists.old) key) }
    ensures lists { OnOk result ((k : K) → list_at K.eq lists.new k ≡ (if K.eq k key then list_at K.eq lists.old k ++ n ∷ [] else list_at K.eq lists.old k)) }
{
    let empty = Vec::new(alloc);
    let mut list = match lists.insert(key, empty)? {
        None => Vec::new(alloc),
        Some(list) => list,
    };
    list.push(n)?;
    lists.insert(key, list)?;
    Ok(())
}
