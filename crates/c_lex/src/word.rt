//! How long the token in front is.

ghost use Rattle.std.specs.Prelude.{◌≡◌, ◌&&◌, ◌+◌, ◌<◌, ◌^◌, ◌==◌, length, take, nat_le, IsTrue, IsFalse, slice_index, [], ◌∷◌, if◌then◌else◌};
ghost use Rattle.std.specs.Char.{is_ascii_digit, is_ascii_hexdigit};
ghost use Rattle.std.specs.List.{take_while};
ghost use Rattle.nk_base.specs.Byte as byte;
ghost use Rattle.c_lex.specs.Form as spec;
ghost use Rattle.c_lex.specs.Lexed.{longest};
ghost use Rattle.c_lex.specs.Lexing as lexing;

use nk_base::byte::{is_name_byte, is_name_start};
use nk_base::{behind_prefix, digits_len};

/// How many bytes make the longest token in front; 0 where none do, and where a comment begins.
pub fn token_length(bytes: &[u8]) -> usize
    ensures { result ≡ longest bytes.now }
{
    let Some(first) = bytes.first() else {
        return 0;
    };
    if is_name_start(*first) {
        name_run(bytes)
    } else if first.is_ascii_digit() {
        number_length(bytes)
    } else if begins_comment(bytes) {
        0
    } else {
        mark_length(bytes)
    }
}

/// How many name bytes are in front.
fn name_run(bytes: &[u8]) -> usize
    ensures { result ≡ length (take_while byte.is_name_byte bytes.now) }
{
    bytes.iter().take_while(|c| is_name_byte(**c)).count()
}

/// The length of the number in front: a `0` is one by itself, where no `x` and hexadecimal digits stand behind it.
fn number_length(bytes: &[u8]) -> usize
    requires { IsTrue (is_ascii_digit (slice_index bytes.now 0)) }
    ensures { result ≡ longest bytes.now }
{
    if let Some(digits) = behind_prefix(bytes, b"0x") {
        return prefixed_length(hexadecimal_run(digits));
    }
    if bytes[0] == b'0' {
        return 1;
    }
    digits_len(bytes)
}

/// The length of a number with so many digits behind its prefix: without any, its 0 alone is one.
fn prefixed_length(digits: usize) -> usize
    requires { digits + 2 < 2 ^ 64 }
    ensures { result ≡ (if digits == 0 then 1 else 2 + digits) }
{
    if digits == 0 { 1 } else { 2 + digits }
}

/// How many hexadecimal digits are in front.
fn hexadecimal_run(bytes: &[u8]) -> usize
    ensures { result ≡ length (take_while is_ascii_hexdigit bytes.now) }
{
    bytes.iter().take_while(|c| c.is_ascii_hexdigit()).count()
}

/// Whether a comment begins here, whether or not it has an end.
fn begins_comment(bytes: &[u8]) -> bool
    ensures { result ≡ lexing.begins_comment bytes.now }
{
    matches!(*bytes, [b'/', b'/' | b'*', ..])
}

/// The length of the mark in front; 0 where there is none.
fn mark_length(bytes: &[u8]) -> usize
    requires no_name { IsFalse (byte.is_name_start (slice_index bytes.now 0)) }
    requires no_number { IsFalse (is_ascii_digit (slice_index bytes.now 0)) }
    requires no_comment { IsFalse (lexing.begins_comment bytes.now) }
    ensures { result ≡ longest bytes.now }
{
    if begins_triple(bytes) {
        3
    } else if begins_double(bytes) {
        2
    } else if begins_single(bytes) {
        1
    } else {
        0
    }
}

/// Whether the first three bytes are a mark.
fn begins_triple(bytes: &[u8]) -> bool
    ensures { result ≡ (nat_le 3 (length bytes.now) && spec.is_mark (take 3 bytes.now)) }
{
    bytes.len() >= 3 && is_triple_mark(bytes[0], bytes[1], bytes[2])
}

/// Whether the first two bytes are a mark.
fn begins_double(bytes: &[u8]) -> bool
    ensures { result ≡ (nat_le 2 (length bytes.now) && spec.is_mark (take 2 bytes.now)) }
{
    bytes.len() >= 2 && is_double_mark(bytes[0], bytes[1])
}

/// Whether the first byte is a mark.
fn begins_single(bytes: &[u8]) -> bool
    ensures { result ≡ (nat_le 1 (length bytes.now) && spec.is_mark (take 1 bytes.now)) }
{
    !bytes.is_empty() && is_single_mark(bytes[0])
}

/// Whether the three bytes are a mark.
fn is_triple_mark(first: u8, second: u8, third: u8) -> bool
    ensures { result ≡ spec.is_mark (first ∷ second ∷ third ∷ []) }
{
    matches!(first, b'<' | b'>') && second == first && third == b'='
}

/// Whether the two bytes are a mark.
fn is_double_mark(first: u8, second: u8) -> bool
    ensures { result ≡ spec.is_mark (first ∷ second ∷ []) }
{
    match second {
        b'=' => b"=!<>+-*/%&|^".contains(&first),
        b'>' => matches!(first, b'>' | b'-'),
        b'<' | b'&' | b'|' | b'+' | b'-' => first == second,
        _ => false,
    }
}

/// Whether the byte is a mark.
fn is_single_mark(c: u8) -> bool
    ensures { result ≡ spec.is_mark (c ∷ []) }
{
    b"()[]{},;=+-*&|^~!<>/%?:.#'\"\\".contains(&c)
}
