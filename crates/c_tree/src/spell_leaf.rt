//! The texts of single symbols, each with a blank behind it.

ghost use Rattle.std.specs.Prelude.{◌≡◌, ◌∷◌, [], ◌++◌, OnOk};
ghost use Rattle.std.specs.Fmt.{decimal};
ghost use Rattle.c_tree.specs.Spell.{name_spelling, number_spelling, type_spelling};
ghost use Rattle.c_tree.specs.Ended.{ended};

use crate::names::{Name, Number, TypeWord};
use nk_base::{Memory, Text, dec_into};

/// Appends the word and a blank.
pub fn push_word(text: &mut Text, word: &[u8]) -> Result<(), Memory>
    ensures { OnOk result (text.new ≡ text.old ++ (word.now ++ 32 ∷ [])) }
{
    text.push_bytes(word)?;
    text.push(b' ')
}

/// Appends the name.
pub fn push_name(text: &mut Text, name: &Name) -> Result<(), Memory>
    ensures { OnOk result (text.new ≡ text.old ++ ended (name_spelling name.now)) }
{
    push_word(text, name.text.as_bytes())
}

/// Appends the number in decimal.
pub fn push_decimal(text: &mut Text, value: u64) -> Result<(), Memory>
    ensures { OnOk result (text.new ≡ text.old ++ (decimal value ++ 32 ∷ [])) }
{
    let mut digits = [0u8; 40];
    let length = dec_into(i128::from(value), &mut digits);
    push_word(text, &digits[..length])
}

/// Appends the number.
pub fn push_number(text: &mut Text, number: Number) -> Result<(), Memory>
    ensures { OnOk result (text.new ≡ text.old ++ ended (number_spelling number)) }
{
    push_decimal(text, number.value)
}

/// Appends the word of the type.
pub fn push_type(text: &mut Text, word: TypeWord) -> Result<(), Memory>
    ensures { OnOk result (text.new ≡ text.old ++ ended (type_spelling word)) }
{
    match word {
        TypeWord::Int(_) => push_word(text, b"int"),
    }
}
