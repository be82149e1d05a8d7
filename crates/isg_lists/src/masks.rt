//! Shapes by their masks.

ghost use Rattle.std.specs.Prelude.{◌≡◌, ◌++◌, ℕ, List, IfOk, MatchOption, Some, map, nat_eq, slice_get};
ghost use Rattle.indexmap.specs.IndexMap.{keys};
ghost use Rattle.nml_shape.specs.Common.{HasWord};
ghost use Rattle.nml_shape.specs.declared.shape.Shape.{Shape};
ghost use Rattle.isg_lists.specs.Masks as spec;
ghost use Rattle.isg_lists.specs.Masks.{AreMasks, HasAt, HasNone, IsListOf, IsMissing, IsRising, has_mask, masks_in};
ghost use Rattle.isg_lists.specs.Numbers.{list_at, numbers_where};

use crate::group::{add, shape_at};
use indexmap::IndexMap;
use nk_base::Memory;
use nml_shape::Shape;
use std::alloc::Global;

/// The shapes of one mask: their numbers in rising order of their values, and those values.
#[derive(Drop)]
struct OfMask {
    mask: u128,
    values: Vec<u128>,
    numbers: Vec<u32>,
}

/// The different masks of shapes in the order first seen, and for each the numbers of its shapes in rising order of their values.
///
/// The form is this project's own.
#[derive(Drop)]
pub struct Masks {
    masks: Vec<u128>,
    lists: Vec<OfMask>,
}

/// The shapes by their masks.
///
/// The one error is want of memory, also that for more than 2^32 shapes. The rule is this project's own.
pub fn masks_of(alloc: Global, shapes: &[Shape]) -> Result<Masks, Memory>
    ensures { IfOk result (λ m. AreMasks shapes.now m) }
{
    let groups = by_mask(alloc, shapes)?;
    kept(alloc, shapes, &groups)
}

/// What is kept of the numbers by masks.
fn kept(alloc: Global, shapes: &[Shape], groups: &IndexMap<u128, Vec<u32>>) -> Result<Masks, Memory>
    requires keys { keys groups.now ≡ spec.masks shapes.now }
    requires lists { (mask : ℕ) → list_at nat_eq groups.now mask ≡ numbers_where (has_mask mask) shapes.now }
    ensures { IfOk result (λ m. AreMasks shapes.now m) }
{
    let mut masks = Vec::new(alloc);
    let mut lists = Vec::new(alloc);
    let mut k = 0;
    while let Some((mask, numbers)) = groups.get_index(k) {
        lists.push(list_of(alloc, shapes, *mask, numbers.as_slice())?)?;
        masks.push(*mask)?;
        k += 1;
    }
    Ok(Masks { masks, lists })
}

/// For each mask the numbers of its shapes in rising order.
fn by_mask(alloc: Global, shapes: &[Shape]) -> Result<IndexMap<u128, Vec<u32>>, Memory>
    ensures keys { IfOk result (λ m. keys m ≡ spec.masks shapes.now) }
    ensures lists { IfOk result (λ m. (mask : ℕ) → list_at nat_eq m mask ≡ numbers_where (has_mask mask) shapes.now) }
{
    let mut lists = IndexMap::new(alloc);
    for i in 0..shapes.len() {
        let Ok(n) = u32::try_from(i) else {
            return Err(Memory);
        };
        add(alloc, &mut lists, shape_at(shapes, i).mask, n)?;
    }
    Ok(lists)
}

/// What is kept for a mask, of the numbers of its shapes in rising order.
fn list_of(alloc: Global, shapes: &[Shape], mask: u128, numbers: &[u32]) -> Result<OfMask, Memory>
    requires { numbers.now ≡ numbers_where (has_mask mask) shapes.now }
    ensures mask { IfOk result (λ l. l.mask ≡ mask) }
    ensures list { IfOk result (λ l. IsListOf shapes.now l) }
{
    let mut numbers = Vec::from_slice(alloc, numbers)?;
    numbers.sort_by_key(|n| value_at(shapes, *n))?;
    let values = values_of(alloc, shapes, numbers.as_slice())?;
    Ok(OfMask {
        mask,
        values,
        numbers,
    })
}

/// The values of the shapes of these numbers.
fn values_of(alloc: Global, shapes: &[Shape], numbers: &[u32]) -> Result<Vec<u128>, Memory>
    ensures { IfOk result (λ values. values.items ≡ map (spec.value_at shapes.now) numbers.now) }
{
    let mut values = Vec::new(alloc);
    for n in numbers {
        values.push(value_at(shapes, *n))?;
    }
    Ok(values)
}

/// The value of the shape of this number; 0 where there is none.
fn value_at(shapes: &[Shape], n: u32) -> u128
    ensures { result ≡ spec.value_at shapes.now n }
{
    match shapes.get(n as usize) {
        None => 0,
        Some(shape) => shape.value,
    }
}

/// The place of a value, of values that rise.
fn place(values: &[u128], value: u128) -> Option<usize>
    ensures { IsRising values.now → MatchOption result (IsMissing values.now value) (λ i. slice_get values.now i ≡ Some value) }
{
    match values.binary_search(&value) {
        Ok(i) => Some(i),
        Err(_) => None,
    }
}

/// The number at the place.
fn number_at(numbers: &[u32], i: usize) -> Option<u32>
    ensures { result ≡ slice_get numbers.now i }
{
    numbers.get(i).copied()
}

impl OfMask {
    /// The shape that has the word, of those with this mask.
    fn shape_of(&self, word: u128) -> Option<u32>
        ensures { (shapes : List Shape) → IsListOf shapes self.now → MatchOption result (spec.HasNoneOf self.now.mask shapes word) (λ n. HasAt shapes word n) }
    {
        match place(self.values.as_slice(), word & self.mask) {
            None => None,
            Some(i) => number_at(self.numbers.as_slice(), i),
        }
    }
}

impl Masks {
    /// The different masks of the shapes, in the order first seen. It takes no memory.
    pub fn masks(&self) -> &[u128]
        ensures { result.now ≡ masks_in self.now }
    {
        self.masks.as_slice()
    }

    /// The numbers of exactly the shapes with the mask of number `m`, in rising order of their values; none where there is no such mask.
    ///
    /// It takes no memory.
    pub fn of_mask(&self, m: u32) -> &[u32]
        ensures { result.now ≡ spec.of_mask self.now m }
    {
        match self.lists.get(m as usize) {
            None => &[],
            Some(list) => list.numbers.as_slice(),
        }
    }

    /// The number of a shape that has the word, of the shapes by whose masks this was made; `None` where none has it.
    ///
    /// It takes no memory, and one binary search for each mask.
    pub fn shape_of(&self, word: u128) -> Option<u32>
        ensures { (shapes : List Shape) → AreMasks shapes self.now → MatchOption result (HasNone shapes word) (λ n. HasAt shapes word n) }
    {
        for list in &self.lists {
            if let Some(n) = list.shape_of(word) {
                return Some(n);
            }
        }
        None
    }
}
