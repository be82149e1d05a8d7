//! The texts of single symbols, of sizes and of types, each with a blank behind it.

ghost use Rattle.std.specs.Prelude.{◌≡◌, ◌∷◌, [], ◌++◌, OnOk, codes};
ghost use Rattle.std.specs.Fmt.{decimal};
ghost use Rattle.nml_tree.specs.Spell.{name_spelling, string_spelling, size_spelling, type_spelling};
ghost use Rattle.nml_tree.specs.Ended.{ended};

use crate::names::{Name, Quoted};
use crate::tree::{Size, TypeExpr};
use nk_base::{Memory, Text, dec_into};

/// Appends the word and a blank.
pub fn push_word(text: &mut Text, word: &[u8]) -> Result<(), Memory>
    ensures { OnOk result (text.new ≡ text.old ++ (word.now ++ 32 ∷ [])) }
{
    text.push_bytes(word)?;
    text.push(b' ')
}

/// Appends the name.
pub fn push_name(text: &mut Text, name: &Name) -> Result<(), Memory>
    ensures { OnOk result (text.new ≡ text.old ++ ended (name_spelling name.now)) }
{
    push_word(text, name.text.as_bytes())
}

/// Appends the number in decimal.
pub fn push_number(text: &mut Text, value: u64) -> Result<(), Memory>
    ensures { OnOk result (text.new ≡ text.old ++ (decimal value ++ 32 ∷ [])) }
{
    let mut digits = [0u8; 40];
    let length = dec_into(i128::from(value), &mut digits);
    push_word(text, &digits[..length])
}

/// Appends the string between its quotes.
pub fn push_string(text: &mut Text, string: &Quoted) -> Result<(), Memory>
    ensures { OnOk result (text.new ≡ text.old ++ ended (string_spelling string.now)) }
{
    text.push(b'"')?;
    text.push_bytes(string.text.as_bytes())?;
    push_word(text, b"\"")
}

/// Appends the size.
pub fn push_size(text: &mut Text, size: &Size) -> Result<(), Memory>
    ensures { OnOk result (text.new ≡ text.old ++ ended (size_spelling size.now)) }
{
    match size {
        Size::Number(number) => push_number(text, number.value),
        Size::Name(name) => push_name(text, name),
    }
}

/// Appends the word, the opening parenthesis and the size.
#[tactic(auto, using(crate::proofs::EndedLaws::ended_laws))]
pub fn push_sized(text: &mut Text, word: &[u8], size: &Size) -> Result<(), Memory>
    ensures { OnOk result (text.new ≡ text.old ++ (word.now ++ codes " ( " ++ ended (size_spelling size.now))) }
{
    push_word(text, word)?;
    push_word(text, b"(")?;
    push_size(text, size)
}

/// Appends the comma, the size and the closing parenthesis.
#[tactic(auto, using(crate::proofs::EndedLaws::ended_laws))]
pub fn push_last_size(text: &mut Text, size: &Size) -> Result<(), Memory>
    ensures { OnOk result (text.new ≡ text.old ++ (codes ", " ++ ended (size_spelling size.now) ++ codes ") ")) }
{
    push_word(text, b",")?;
    push_size(text, size)?;
    push_word(text, b")")
}

/// Appends the type.
#[tactic(auto, using(crate::proofs::EndedLaws::ended_laws))]
pub fn push_type(text: &mut Text, ty: &TypeExpr) -> Result<(), Memory>
    ensures { OnOk result (text.new ≡ text.old ++ ended (type_spelling ty.now)) }
{
    match ty {
        TypeExpr::Bool(_) => push_word(text, b"bool"),
        TypeExpr::Card(_, _, size, _) => {
            push_sized(text, b"card", size)?;
            push_word(text, b")")
        }
        TypeExpr::Int(_, _, size, _) => {
            push_sized(text, b"int", size)?;
            push_word(text, b")")
        }
        TypeExpr::Fix(_, _, size, _, second, _) => {
            push_sized(text, b"fix", size)?;
            push_last_size(text, second)
        }
        TypeExpr::Float(_, _, size, _, second, _) => {
            push_sized(text, b"float", size)?;
            push_last_size(text, second)
        }
        TypeExpr::Name(name) => push_name(text, name),
    }
}
