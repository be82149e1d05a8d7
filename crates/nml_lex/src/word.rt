//! How long the token in front is.

ghost use Rattle.std.specs.Prelude.{◌≡◌, length, IsTrue, IsFalse, slice_index, [], ◌∷◌, ◌+◌, ◌<◌, ◌^◌, if◌then◌else◌, ◌==◌};
ghost use Rattle.std.specs.Char.{is_ascii_digit, is_ascii_hexdigit};
ghost use Rattle.std.specs.List.{take_while};
ghost use Rattle.nk_base.specs.Byte as byte;
ghost use Rattle.nml_lex.specs.Form.{longest};
ghost use Rattle.nml_lex.specs.Form as spec;

use nk_base::byte::{is_name_byte, is_name_start};
use nk_base::{behind_prefix, digits_len};

/// How many bytes make the longest token in front; 0 where none do.
pub fn token_length(bytes: &[u8]) -> usize
    ensures { result ≡ longest bytes.now }
{
    let Some((first, behind)) = bytes.split_first() else {
        return 0;
    };
    if is_name_start(*first) {
        name_run(bytes)
    } else if first.is_ascii_digit() {
        number_length(bytes)
    } else if *first == b'"' {
        string_length(behind)
    } else {
        mark_length(*first, behind)
    }
}

/// How many name bytes are in front.
fn name_run(bytes: &[u8]) -> usize
    ensures { result ≡ length (take_while byte.is_name_byte bytes.now) }
{
    bytes.iter().take_while(|c| is_name_byte(**c)).count()
}

/// The length of the number in front.
fn number_length(bytes: &[u8]) -> usize
    requires { IsTrue (is_ascii_digit (slice_index bytes.now 0)) }
    ensures { result ≡ longest bytes.now }
{
    if let Some(digits) = behind_prefix(bytes, b"0x") {
        return prefixed_length(hexadecimal_run(digits));
    }
    if let Some(digits) = behind_prefix(bytes, b"0b") {
        return prefixed_length(binary_run(digits));
    }
    digits_len(bytes)
}

/// The length of a number with so many digits behind its prefix: without any, its 0 alone is one.
fn prefixed_length(digits: usize) -> usize
    requires { digits + 2 < 2 ^ 64 }
    ensures { result ≡ (if digits == 0 then 1 else 2 + digits) }
{
    if digits == 0 { 1 } else { 2 + digits }
}

/// How many hexadecimal digits are in front.
fn hexadecimal_run(bytes: &[u8]) -> usize
    ensures { result ≡ length (take_while is_ascii_hexdigit bytes.now) }
{
    bytes.iter().take_while(|c| c.is_ascii_hexdigit()).count()
}

/// How many binary digits are in front.
fn binary_run(bytes: &[u8]) -> usize
    ensures { result ≡ length (take_while spec.is_binary_digit bytes.now) }
{
    bytes
        .iter()
        .take_while(|c| matches!(**c, b'0' | b'1'))
        .count()
}

/// The length of the string whose opening quote stands before these bytes, with its quotes; 0 where it isn't closed.
fn string_length(behind: &[u8]) -> usize
    ensures { result ≡ longest (34 ∷ behind.now) }
{
    let letters = quoted_run(behind);
    if behind.get(letters) == Some(&b'"') {
        letters + 2
    } else {
        0
    }
}

/// How many bytes in front a string may have.
fn quoted_run(bytes: &[u8]) -> usize
    ensures { result ≡ length (take_while spec.is_quoted bytes.now) }
{
    bytes.iter().take_while(|c| is_quoted(**c)).count()
}

/// Whether a string may have the byte.
fn is_quoted(c: u8) -> bool
    ensures { result ≡ spec.is_quoted c }
{
    matches!(c, b' '..=b'~') && c != b'"'
}

/// The length of the mark that begins with this byte, before those behind it; 0 where there is none.
fn mark_length(first: u8, behind: &[u8]) -> usize
    requires no_name { IsFalse (byte.is_name_start first) }
    requires no_number { IsFalse (is_ascii_digit first) }
    requires no_string { IsFalse (first == 34) }
    ensures { result ≡ longest (first ∷ behind.now) }
{
    match behind.first() {
        Some(second) if is_double_mark(first, *second) => 2,
        _ if is_single_mark(first) => 1,
        _ => 0,
    }
}

/// Whether the two bytes are a mark.
fn is_double_mark(first: u8, second: u8) -> bool
    ensures { result ≡ spec.is_mark (first ∷ second ∷ []) }
{
    match second {
        b'=' => matches!(first, b'=' | b'!' | b'<' | b'>'),
        b'<' | b'>' | b'&' | b'|' => first == second,
        _ => false,
    }
}

/// Whether the byte is a mark.
fn is_single_mark(c: u8) -> bool
    ensures { result ≡ spec.is_mark (c ∷ []) }
{
    b"()[]{},;:.=<>+-*&|^~!".contains(&c)
}
