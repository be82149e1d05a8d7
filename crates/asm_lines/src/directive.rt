//! The directives `.bits` and `.data`.

ghost use Rattle.std.specs.Prelude.{◌≡◌, ◌≤◌, ◌∷◌, [], IfOk, option_map};
ghost use Rattle.std.specs.List.{list_all};
ghost use Rattle.asm_lines.specs.Line as spec;
ghost use Rattle.asm_lines.specs.Line.{Bits};
ghost use Rattle.asm_lines.specs.Seen.{seen_data, IsContent};

use crate::front::{is_name, next_part};
use crate::line::{Content, Data};
use crate::number::{is_number, is_signed_number, signed_value, value};
use nk_base::{Memory, Text, number_up_to};
use std::alloc::Global;

/// The directive that the line is, of a description whose words have so many bits; none where its form is wrong.
pub fn directive(alloc: Global, width: u32, text: &[u8]) -> Result<Option<Content>, Memory>
    requires { width ≤ 64 }
    ensures { IfOk result (λ found. IsContent found (spec.directive width (spec.parts text.now))) }
{
    let Some((word, text)) = next_part(text) else {
        return Ok(None);
    };
    let Some((first, text)) = next_part(text) else {
        return Ok(None);
    };
    let Some((second, text)) = next_part(text) else {
        return Ok(bits_directive(width, word, first));
    };
    let Some((third, text)) = next_part(text) else {
        return Ok(None);
    };
    match next_part(text) {
        None => data_directive(alloc, width, word, first, second, third),
        Some(_) => Ok(None),
    }
}

/// `.bits` and the digits.
fn bits_directive(width: u32, word: &[u8], digits: &[u8]) -> Option<Content>
    requires { width ≤ 64 }
    ensures { IsContent result (spec.directive width (word.now ∷ digits.now ∷ [])) }
{
    if word == b".bits".as_slice() {
        Some(Content::Bits(bits(width, digits)?))
    } else {
        None
    }
}

/// The word that the hexadecimal digits write, where they are as many as a word has, and it is one.
fn bits(width: u32, digits: &[u8]) -> Option<u128>
    requires { width ≤ 64 }
    ensures { option_map Bits result ≡ spec.bits width digits.now }
{
    if !are_hexadecimal(digits) || digits.len() != ((width + 3) / 4) as usize {
        return None;
    }
    number_up_to(digits, 16, (1 << width) - 1)
}

/// Whether each byte is a hexadecimal digit, in either case.
fn are_hexadecimal(digits: &[u8]) -> bool
    ensures { result ≡ list_all spec.is_hexadecimal digits.now }
{
    digits.iter().all(|c| is_hexadecimal(*c))
}

/// Whether the byte is a hexadecimal digit, in either case.
fn is_hexadecimal(c: u8) -> bool
    ensures { result ≡ spec.is_hexadecimal c }
{
    c.is_ascii_digit() || (b'a' <= c && c <= b'f') || (b'A' <= c && c <= b'F')
}

/// `.data` and its three parts.
fn data_directive(
    alloc: Global,
    width: u32,
    word: &[u8],
    name: &[u8],
    cell: &[u8],
    number: &[u8],
) -> Result<Option<Content>, Memory>
    ensures { IfOk result (λ found. IsContent found (spec.directive width (word.now ∷ name.now ∷ cell.now ∷ number.now ∷ []))) }
{
    if word == b".data".as_slice() {
        match data(alloc, name, cell, number)? {
            None => Ok(None),
            Some(data) => Ok(Some(Content::Data(data))),
        }
    } else {
        Ok(None)
    }
}

/// The initial value that the three parts give; none where the form of one is wrong.
fn data(alloc: Global, name: &[u8], cell: &[u8], number: &[u8]) -> Result<Option<Data>, Memory>
    ensures { IfOk result (λ found. option_map seen_data found ≡ spec.data_of name.now cell.now number.now) }
{
    if !is_name(name) || !is_number(cell) || !is_signed_number(number) {
        return Ok(None);
    }
    Ok(Some(Data {
        name: Text::from_bytes(alloc, name)?,
        cell: value(cell),
        value: signed_value(number),
    }))
}
