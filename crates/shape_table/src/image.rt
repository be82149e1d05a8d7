//! The least word that two shapes have in common.

ghost use Rattle.std.specs.Prelude.{◌≡◌};
ghost use Rattle.nml_shape.specs.Common.{IsLeastWord};
ghost use Rattle.shape_table.specs.Meet as spec;

use nml_shape::Shape;

/// The least word that has the fixed bits of both shapes, or that there is none.
///
/// A shape whose value has a bit outside its mask has no word. It takes no memory. The rule is this project's own.
pub fn overlap_image(a: &Shape, b: &Shape) -> Option<u128>
    ensures { IsLeastWord a.now b.now result }
{
    if words_meet(a, b) {
        Some(a.value | b.value)
    } else {
        None
    }
}

/// Whether there is one.
pub fn words_meet(a: &Shape, b: &Shape) -> bool
    ensures { result ≡ spec.words_meet a.now b.now }
{
    is_within(a) && is_within(b) && (a.value ^ b.value) & a.mask & b.mask == 0
}

/// Whether the value has no bit outside the mask.
fn is_within(shape: &Shape) -> bool
    ensures { result ≡ spec.is_within shape.now }
{
    shape.value & shape.mask == shape.value
}
