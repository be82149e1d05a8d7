//! A shape, its fields and its tokens, and an instruction as a shape and a word.

ghost use Rattle.std.specs.Prelude.{◌≡◌};
ghost use Rattle.nk_base.specs.declared.number.Ty.TheVariants.{Bool};

use nk_base::{Text, Ty};
use smallvec::SmallVec;

/// A field of a shape: the type of its numbers, of 1 to 64 bits, and the place of its lowest bit in the word; 0 is the lowest.
///
/// The form is this project's own.
#[derive(Clone, Copy, Debug)]
pub struct FieldAt {
    pub ty: Ty,
    pub low: u32,
}

impl Default for FieldAt {
    ghost is_default = { λ f. (f.ty ≡ Bool) × (f.low ≡ 0) };

    /// One bit at the bottom of the word.
    fn default() -> FieldAt {
        FieldAt {
            ty: Ty::Bool,
            low: 0,
        }
    }
}

/// A token of a shape's syntax: a word of letters and `_`, a number, any other byte but a blank, or a field by its number, from 0, whose
/// number stands there.
///
/// The form is this project's own.
#[derive(Debug, Drop)]
pub enum Piece {
    Word(Text),
    Number(i128),
    Mark(u8),
    Field(u32),
}

/// All instructions with one list of picks: in their words the bits of `mask` are those of `value`, which has no other; their fields, and
/// their tokens, each in order; and the numbers of the alternatives that a walk picks, parameters left to right.
///
/// The form is this project's own.
#[derive(Drop)]
pub struct Shape {
    pub mask: u128,
    pub value: u128,
    pub fields: SmallVec<FieldAt, 4>,
    pub template: Vec<Piece>,
    pub picks: Vec<u32>,
}

/// The instruction of the shape of this number whose image is the word.
///
/// The form is this project's own.
#[derive(Clone, Copy, Debug)]
pub struct Inst {
    pub shape: u32,
    pub word: u128,
}
