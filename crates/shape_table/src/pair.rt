//! The first two of many shapes that have something in common.

ghost use Rattle.std.specs.Prelude.{◌≡◌, ◌<◌, ℕ, length, IfOk, MatchOption};
ghost use Rattle.nml_shape.specs.First.{HaveWord, HaveTokens, HasNoPair, IsFirstPair};
ghost use Rattle.nml_shape.specs.Common.{IsSingle};
ghost use Rattle.shape_table.specs.Label.{AreLabels, AreNext, Each, Have, IsPartner, IsReady};
ghost use Rattle.shape_table.specs.Label as spec;
ghost use Rattle.shape_table.specs.Meet.{HasTypes};

use crate::common::{Common, Part};
use crate::label::{labels, next_same, refined};
use nk_base::Memory;
use nml_shape::Shape;
use std::alloc::Global;

/// Of all two shapes with a word in common the two with the least first number, and of these with the least second one.
///
/// Not every two are compared: only those with the same values of the bits that are fixed in all that were alike so far. The one error is
/// want of memory. The rule is this project's own.
pub fn first_image_pair(alloc: Global, shapes: &[Shape]) -> Result<Option<(usize, usize)>, Memory>
    ensures { IfOk result (λ found. MatchOption found (HasNoPair HaveWord shapes.now) (λ p. IsFirstPair HaveWord shapes.now p.0 p.1)) }
{
    let once = labels(alloc, Common::Image, shapes)?;
    let twice = refined(alloc, Part::Bits, shapes, once.as_slice())?;
    let thrice = refined(alloc, Part::Bits, shapes, twice.as_slice())?;
    let labels = refined(alloc, Part::Bits, shapes, thrice.as_slice())?;
    first_pair(alloc, Common::Image, shapes, labels.as_slice())
}

/// Of all two shapes with a list of tokens in common the two with the least first number, and of these with the least second one.
///
/// Not every two are compared: only those with the same words and marks and with numbers at the same places, and with the same number at
/// each place where all that were alike so far have one that is written. The one error is want of memory. The rule is this project's own.
pub fn first_syntax_pair(alloc: Global, shapes: &[Shape]) -> Result<Option<(usize, usize)>, Memory>
    requires single { Each IsSingle shapes.now }
    requires types { Each HasTypes shapes.now }
    ensures { IfOk result (λ found. MatchOption found (HasNoPair HaveTokens shapes.now) (λ p. IsFirstPair HaveTokens shapes.now p.0 p.1)) }
{
    let mut labels = labels(alloc, Common::Syntax, shapes)?;
    for place in 0..places(shapes) {
        labels = refined(alloc, Part::Place(place), shapes, labels.as_slice())?;
    }
    first_pair(alloc, Common::Syntax, shapes, labels.as_slice())
}

/// At how many places numbers are looked at before shapes are compared: more would tell few apart.
fn places(shapes: &[Shape]) -> usize {
    let mut longest = 0;
    for shape in shapes {
        longest = longest.max(shape.template.len());
    }
    longest.min(128)
}

/// The two with the least first number, and then the least second one.
fn first_pair(
    alloc: Global,
    common: Common,
    shapes: &[Shape],
    labels: &[u128],
) -> Result<Option<(usize, usize)>, Memory>
    requires ready { Each (IsReady common) shapes.now }
    requires labels { AreLabels common shapes.now labels.now }
    ensures { IfOk result (λ found. MatchOption found (HasNoPair (Have common) shapes.now) (λ p. IsFirstPair (Have common) shapes.now p.0 p.1)) }
{
    let next = next_same(alloc, labels)?;
    Ok(first_of(common, shapes, labels, next.as_slice()))
}

/// The same, with the next number with the same label for each.
fn first_of(
    common: Common,
    shapes: &[Shape],
    labels: &[u128],
    next: &[usize],
) -> Option<(usize, usize)>
    requires ready { Each (IsReady common) shapes.now }
    requires labels { AreLabels common shapes.now labels.now }
    requires next { AreNext labels.now next.now }
    ensures { MatchOption result (HasNoPair (Have common) shapes.now) (λ p. IsFirstPair (Have common) shapes.now p.0 p.1) }
{
    for i in 0..shapes.len() {
        if let Some(j) = partner(common, shapes, labels, next, i) {
            return Some((i, j));
        }
    }
    None
}

/// The next shape that has something in common with this one.
fn partner(
    common: Common,
    shapes: &[Shape],
    labels: &[u128],
    next: &[usize],
    i: usize,
) -> Option<usize>
    requires ready { Each (IsReady common) shapes.now }
    requires labels { AreLabels common shapes.now labels.now }
    requires next { AreNext labels.now next.now }
    requires within { i < length shapes.now }
    ensures { IsPartner common shapes.now i result }
{
    let mut j = next[i];
    while j < shapes.len() {
        if meet_at(common, shapes, i, j) {
            return Some(j);
        }
        j = next[j];
    }
    None
}

/// Whether the shapes of these two numbers have something in common.
fn meet_at(common: Common, shapes: &[Shape], i: usize, j: usize) -> bool
    requires ready { Each (IsReady common) shapes.now }
    requires i { i < length shapes.now }
    requires j { j < length shapes.now }
    ensures { result ≡ spec.meets_at common shapes.now i j }
{
    common.meet(&shapes[i], &shapes[j])
}
