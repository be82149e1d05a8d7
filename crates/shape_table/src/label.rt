//! Labels that shapes with something in common share, and the next number with the same label.

ghost use Rattle.std.specs.Prelude.{◌≡◌, IfOk, length, unwrap_or};
ghost use Rattle.std.specs.BTreeMap.{get};
ghost use Rattle.std.specs.Ordering.{nat_cmp};
ghost use Rattle.shape_table.specs.Label.{AreNext, AreLabels, AreCommon, all_bits, whole};

use crate::common::{Common, Part};
use nk_base::Memory;
use nml_shape::Shape;
use std::alloc::Global;
use std::collections::BTreeMap;

/// Labels of the shapes, each by its shape alone.
pub fn labels(alloc: Global, common: Common, shapes: &[Shape]) -> Result<Vec<u128>, Memory>
    ensures { IfOk result (λ labels. AreLabels common shapes.now labels.items) }
{
    let mut labels = Vec::new(alloc);
    for shape in shapes {
        labels.push(common.first_label(shape))?;
    }
    Ok(labels)
}

/// Labels that tell more shapes apart, by the part: what is fixed of it in all shapes of a label.
pub fn refined(
    alloc: Global,
    part: Part,
    shapes: &[Shape],
    labels: &[u128],
) -> Result<Vec<u128>, Memory>
    requires { AreLabels (whole part) shapes.now labels.now }
    ensures { IfOk result (λ refined. AreLabels (whole part) shapes.now refined.items) }
{
    let commons = commons(alloc, part, shapes, labels)?;
    let mut refined = Vec::new(alloc);
    for i in 0..shapes.len() {
        refined.push(part.told(&shapes[i], known(&commons, labels[i]), labels[i]))?;
    }
    Ok(refined)
}

/// For each label what is fixed in all of its shapes.
fn commons(
    alloc: Global,
    part: Part,
    shapes: &[Shape],
    labels: &[u128],
) -> Result<BTreeMap<u128, u128>, Memory>
    requires { length labels.now ≡ length shapes.now }
    ensures { IfOk result (λ commons. AreCommon part shapes.now labels.now (λ label. unwrap_or (get nat_cmp commons label) all_bits) (length shapes.now)) }
{
    let mut commons: BTreeMap<u128, u128> = BTreeMap::new(alloc);
    for i in 0..shapes.len() {
        let common = known(&commons, labels[i]) & part.fixed_in(&shapes[i]);
        commons.insert(labels[i], common)?;
    }
    Ok(commons)
}

/// What is fixed in all shapes of the label that were seen.
fn known(commons: &BTreeMap<u128, u128>, label: u128) -> u128
    ensures { result ≡ unwrap_or (get nat_cmp commons.now label) all_bits }
{
    match commons.get(&label) {
        None => u128::MAX,
        Some(common) => *common,
    }
}

/// For each number the next one with the same label, or the length.
pub fn next_same(alloc: Global, labels: &[u128]) -> Result<Vec<usize>, Memory>
    ensures { IfOk result (λ next. AreNext labels.now next.items) }
{
    let count = labels.len();
    let mut next = vec![in alloc; count; count]?;
    let mut last: BTreeMap<u128, usize> = BTreeMap::new(alloc);
    let mut i = count;
    while i > 0 {
        i -= 1;
        if let Some(j) = last.insert(labels[i], i)? {
            next[i] = j;
        }
    }
    Ok(next)
}
