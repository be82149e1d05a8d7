//! A description as a checked one, and what is told of it.

ghost use Rattle.nml_shape.specs.Common.{IsSingle};
ghost use Rattle.nml_shape.specs.First.{HasNoPair, HaveTokens, HaveWord};
ghost use Rattle.nml_shape.specs.Shown.{AreAllShapes, numbers_in};
ghost use Rattle.nml_tree.specs.Refused.{IsChecked, IsFreeBelow, IsRefused};
ghost use Rattle.nml_tree.specs.Table.{table};
ghost use Rattle.nml_types.specs.Pairs.{AreFirstImages, AreFirstTokens, AreListed, IsAlike, IsSaid};
ghost use Rattle.nml_types.specs.Summary.{IsSummary};
ghost use Rattle.shape_table.specs.Meet.{HasTypes};
ghost use Rattle.std.specs.Prelude.{◌≡◌, ◌<◌, length, slice_get, IfOk, MatchResult, Some};

use crate::typing::typed;
use attr_eval::{image, syntax};
use nk_base::Memory;
use nml_shape::Shape;
use nml_tree::{Checked, Deriv, Desc, DescFault, Typed};
use shape_table::{
    Agreement, ShapeFault, agreement, first_image_pair, first_syntax_pair, numbers_of,
    overlap_image, shapes, tokens_text,
};
use std::alloc::Global;

/// The description, where none of the faults N4 to N14 holds of it; else the one of the lowest number, at its first place. `DescFault`
/// names them.
///
/// A description whose rules make an image of 2^64 bits or more is answered with want of memory. The rules are this project's own.
pub fn check(alloc: Global, d: Desc) -> Result<Checked, DescFault>
    ensures { MatchResult result (λ c. c ≡ d) (λ f. IsRefused d f) }
{
    let typed = typed_first(alloc, d)?;
    refuse_alike(alloc, &typed)?;
    Ok(Checked { typed })
}

/// The description, where it is typed.
fn typed_first(alloc: Global, d: Desc) -> Result<Typed, DescFault>
    ensures { MatchResult result (λ t. t ≡ d) (λ f. IsRefused d f) }
{
    match typed(alloc, d) {
        Ok(found) => Ok(found),
        Err(fault) => Err(fault),
    }
}

/// Refuses too many shapes, and two instructions with one image or with one list of tokens.
fn refuse_alike(alloc: Global, d: &Typed) -> Result<(), DescFault>
    ensures { MatchResult result (λ done. IsChecked d.now) (λ f. IsRefused d.now f) }
{
    let all = listed(alloc, d)?;
    refuse_images(alloc, d, all.as_slice())?;
    refuse_tokens(alloc, d, all.as_slice())
}

/// All shapes, where they are not too many or too large.
fn listed(alloc: Global, d: &Typed) -> Result<Vec<Shape>, DescFault>
    ensures { MatchResult result (λ all. AreListed d.now all.items) (λ f. IsRefused d.now f) }
{
    match shapes(alloc, d) {
        Ok(all) => Ok(all),
        Err(ShapeFault::Many { count, nodes, size }) => Err(DescFault::Shapes {
            count,
            nodes,
            size,
        }),
        Err(ShapeFault::Memory) => Err(DescFault::Memory),
    }
}

/// Refuses the first two shapes with a word in common.
fn refuse_images(alloc: Global, d: &Typed, all: &[Shape]) -> Result<(), DescFault>
    requires { AreListed d.now all.now }
    ensures { MatchResult result (λ done. HasNoPair HaveWord all.now) (λ f. IsRefused d.now f) }
{
    match first_image_pair(alloc, all)? {
        None => Ok(()),
        Some((i, j)) => Err(same_image(alloc, d, shape_at(all, i), shape_at(all, j))?),
    }
}

/// The shape of this number.
fn shape_at(all: &[Shape], number: usize) -> &Shape
    requires { number < length all.now }
    ensures { slice_get all.now number ≡ Some result.now }
{
    &all[number]
}

/// The fault of two shapes that are the first with a word in common.
fn same_image(alloc: Global, d: &Typed, a: &Shape, b: &Shape) -> Result<DescFault, Memory>
    requires { AreFirstImages d.now a.now b.now }
    ensures { IfOk result (IsAlike d.now) }
{
    let Some(word) = overlap_image(a, b) else {
        return Err(Memory); // two shapes with a word in common have a least one
    };
    let first = instruction(alloc, a, word)?;
    let second = instruction(alloc, b, word)?;
    Ok(DescFault::SameImage {
        a: syntax(alloc, d, &first)?,
        b: syntax(alloc, d, &second)?,
        word: image(d, &first),
    })
}

/// The instruction of the shape with this word.
fn instruction(alloc: Global, shape: &Shape, word: u128) -> Result<Deriv, Memory>
    requires { HasTypes shape.now }
    ensures { IfOk result (λ v. (v.picks.items ≡ shape.now.picks.items) × (v.fields.items ≡ numbers_in word shape.now.fields.items)) }
{
    Ok(Deriv {
        picks: shape.picks.clone()?,
        fields: numbers_of(alloc, word, shape.fields.as_slice())?,
    })
}

/// Refuses the first two shapes with a list of tokens in common.
fn refuse_tokens(alloc: Global, d: &Typed, all: &[Shape]) -> Result<(), DescFault>
    requires listed { AreListed d.now all.now }
    requires images { HasNoPair HaveWord all.now }
    ensures { MatchResult result (λ done. HasNoPair HaveTokens all.now) (λ f. IsRefused d.now f) }
{
    match first_syntax_pair(alloc, all)? {
        None => Ok(()),
        Some((i, j)) => Err(same_tokens(alloc, d, shape_at(all, i), shape_at(all, j))?),
    }
}

/// The fault of two shapes that are the first with a list of tokens in common.
fn same_tokens(alloc: Global, d: &Typed, a: &Shape, b: &Shape) -> Result<DescFault, Memory>
    requires { AreFirstTokens d.now a.now b.now }
    ensures { IfOk result (IsSaid d.now) }
{
    let Some(found) = agreement(alloc, a, b)? else {
        return Err(Memory); // two shapes with a list of tokens in common have least numbers
    };
    let text = tokens_text(alloc, a, found.first.as_slice())?;
    let Agreement { first, second } = found;
    Ok(DescFault::SameSyntax {
        a: image(d, &with_fields(a, first)?),
        b: image(d, &with_fields(b, second)?),
        text,
    })
}

/// The instruction of the shape with these numbers in its fields.
fn with_fields(shape: &Shape, fields: Vec<i128>) -> Result<Deriv, Memory>
    ensures { IfOk result (λ v. (v.picks.items ≡ shape.now.picks.items) × (v.fields.items ≡ fields.items)) }
{
    Ok(Deriv {
        picks: shape.picks.clone()?,
        fields,
    })
}

/// How many shapes the instructions of a description have, and how many bits each of its words.
#[derive(Clone, Copy, Debug)]
pub struct Summary {
    pub count: u32,
    pub width: u32,
}

/// What is told of an accepted description: the number of its shapes, 1 to 4,096, and of the bits of a word, 8 to 64.
///
/// The one error is want of memory. The rule is this project's own.
pub fn sum_up(alloc: Global, d: &Checked) -> Result<Summary, Memory>
    ensures { IfOk result (λ s. IsSummary (table d.now) s.count s.width) }
{
    let Ok(all) = shapes(alloc, d.typed()) else {
        return Err(Memory); // an accepted description hasn't too many
    };
    let all = all.as_slice();
    let Some(first) = all.first() else {
        return Err(Memory); // there is an instruction
    };
    let word = image(d.typed(), &instruction(alloc, first, first.value)?);
    Ok(Summary {
        count: all.len() as u32,
        width: word.width,
    })
}
