//! The numbers that a word has in the fields of a shape, read off it one by one.

ghost use Rattle.std.specs.Prelude.{◌≡◌, ◌≤◌, ◌/◌, ◌%◌, ◌^◌};
ghost use Rattle.isg_nodes.specs.Fields.{AreTyped};
ghost use Rattle.nk_base.specs.Number.{IsTy};
ghost use Rattle.nml_shape.specs.Shown as spec;
ghost use Rattle.nml_tree.specs.Value.{number_at};

use nk_base::wrap;
use nml_shape::FieldAt;
use std::marker::Model;

/// The numbers in the fields of an instruction: those that its word has in the fields of its shape, each of a type of 1 to 64 bits.
///
/// The form is this project's own.
#[derive(Drop)]
pub struct Fields<'a> {
    places: &'a [FieldAt],
    word: u128,
}

impl<'a> Model for Fields<'a> {
    ghost use Rattle.std.specs.Prelude.{ℤ, List};
    ghost use Rattle.isg_nodes.specs.Fields.{AreTyped};
    ghost use Rattle.nml_shape.specs.Shown.{numbers_in};

    ghost Value = { List ℤ };

    ghost view = { λ f. numbers_in f.word f.places.now };

    ghost invariant = { λ f. AreTyped f.places.now };
}

impl<'a> Fields<'a> {
    /// The numbers that the word has in these fields. It takes no memory.
    pub fn new(places: &'a [FieldAt], word: u128) -> Fields<'a>
        requires { AreTyped places.now }
        ensures { result ≡ spec.numbers_in word places.now }
    {
        Fields { places, word }
    }

    /// The number in the field of this number, from 0; 0 where there is none. It takes no memory.
    pub fn number(&self, n: u32) -> i128
        ensures { result ≡ number_at self.now n }
    {
        match self.places.get(n as usize) {
            None => 0,
            Some(place) => number_in(self.word, *place),
        }
    }
}

/// The number that the word has in the field.
fn number_in(word: u128, field: FieldAt) -> i128
    requires { IsTy field.ty }
    ensures { result ≡ spec.number_in word field }
{
    let bits = low_bits(word_from(word, field.low), field.ty.width());
    wrap(field.ty, i128::from(bits))
}

/// The bits of the word from this place on.
fn word_from(word: u128, low: u32) -> u128
    ensures { result ≡ word / 2 ^ low }
{
    if low < 128 { word >> low } else { 0 }
}

/// The lowest bits of the word, 64 at most.
fn low_bits(word: u128, width: u32) -> u64
    requires { width ≤ 64 }
    ensures { result ≡ word % 2 ^ width }
{
    (word % (1 << width)) as u64
}
