//! The bits that a shape fixes, and the places of its fields.

ghost use Rattle.std.specs.Prelude.{◌≡◌, ◌≤◌, length, map, if◌then◌else◌, IfOk};
ghost use Rattle.nml_tree.specs.Attribute.{number_of};
ghost use Rattle.nml_tree.specs.Outline as outline;
ghost use Rattle.shape_list.specs.Drawn.{bit_of};
ghost use Rattle.shape_list.specs.Fixed as spec;
ghost use Rattle.shape_list.specs.Fixed.{fields_at, low_in};

use crate::text::Glyph;
use nk_base::{Memory, Ty};
use nml_shape::FieldAt;
use smallvec::SmallVec;
use std::alloc::Global;

/// Ones where the bits are fixed, and what they are there.
#[derive(Clone, Copy)]
pub struct Fixed {
    pub mask: u128,
    pub value: u128,
}

/// The fixed bits of an image.
pub fn fixed_bits(image: &[Glyph]) -> Fixed
    requires { length image.now ≤ 64 }
    ensures mask { result.mask ≡ number_of (map outline.is_fixed (map bit_of image.now)) }
    ensures value { result.value ≡ number_of (map outline.fixed_bit (map bit_of image.now)) }
{
    let mut mask: u128 = 0;
    let mut value: u128 = 0;
    for g in image {
        mask = mask * 2 + is_fixed(*g);
        value = value * 2 + fixed_bit(*g);
    }
    Fixed { mask, value }
}

/// 1 where the bit is fixed.
fn is_fixed(g: Glyph) -> u128
    ensures exact { result ≡ (if outline.is_fixed (bit_of g) then 1 else 0) }
    ensures small { result ≤ 1 }
{
    match g {
        Glyph::Letter(_) => 1,
        Glyph::Field(_) => 0,
        Glyph::Seam => 1,
    }
}

/// The bit where it is fixed, else 0.
fn fixed_bit(g: Glyph) -> u128
    ensures exact { result ≡ (if outline.fixed_bit (bit_of g) then 1 else 0) }
    ensures small { result ≤ 1 }
{
    match g {
        Glyph::Letter(c) => if c == 49 { 1 } else { 0 },
        Glyph::Field(_) => 0,
        Glyph::Seam => 0,
    }
}

/// The fields of these types, each with the place of its lowest bit in the image.
pub fn places(alloc: Global, types: &[Ty], image: &[Glyph]) -> Result<SmallVec<FieldAt, 4>, Memory>
    requires { length image.now ≤ 64 }
    ensures { IfOk result (λ v. v.items ≡ fields_at image.now 0 types.now) }
{
    let mut fields = SmallVec::new(alloc);
    for n in 0..types.len() {
        let low = low(image, n);
        fields.push(FieldAt { ty: types[n], low })?;
    }
    Ok(fields)
}

/// The place of the field's lowest bit; as many as there are bits where it has none.
fn low(image: &[Glyph], n: usize) -> u32
    requires { length image.now ≤ 64 }
    ensures { result ≡ low_in n image.now }
{
    image.iter().rev().take_while(|g| is_other(**g, n)).count() as u32
}

/// Whether the bit isn't one of this field.
fn is_other(g: Glyph, n: usize) -> bool
    ensures { result ≡ spec.is_other n g }
{
    match g {
        Glyph::Letter(_) => true,
        Glyph::Field(m) => m as usize != n,
        Glyph::Seam => true,
    }
}
