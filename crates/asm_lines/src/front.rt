//! What stands at the front of a text, and what behind it.

ghost use Rattle.std.specs.Prelude.{◌≡◌, ◌≤◌, ◌==◌, [], length, drop, MatchOption};
ghost use Rattle.std.specs.List.{list_all, prefix_len};
ghost use Rattle.nk_base.specs.Byte as byte;
ghost use Rattle.asm_lines.specs.Line as spec;
ghost use Rattle.asm_lines.specs.Seen.{is_no_blank, is_no_at, is_no_semicolon, IsNextPart};

use nk_base::byte::{is_blank, is_name_byte, is_name_start};

/// The most bytes that a name has.
const LONGEST_NAME: usize = 64;

/// The text up to the first `;`.
pub fn without_comment(text: &[u8]) -> &[u8]
    ensures { result.now ≡ spec.without_comment text.now }
{
    let (front, _) = text.split_at(before_comment(text));
    front
}

/// How many bytes stand before the first `;`.
fn before_comment(text: &[u8]) -> usize
    ensures exact { result ≡ prefix_len is_no_semicolon text.now }
    ensures within { result ≤ length text.now }
{
    text.iter().take_while(|c| **c != b';').count()
}

/// The text without the blanks at its front.
pub fn without_blanks(text: &[u8]) -> &[u8]
    ensures { result.now ≡ spec.without_blanks text.now }
{
    let (_, rest) = text.split_at(blanks_len(text));
    rest
}

/// How many blanks stand at the front.
fn blanks_len(text: &[u8]) -> usize
    ensures exact { result ≡ prefix_len byte.is_blank text.now }
    ensures within { result ≤ length text.now }
{
    text.iter().take_while(|c| is_blank(**c)).count()
}

/// How many bytes of a name stand at the front.
pub fn name_len(text: &[u8]) -> usize
    ensures exact { result ≡ prefix_len byte.is_name_byte text.now }
    ensures within { result ≤ length text.now }
{
    text.iter().take_while(|c| is_name_byte(**c)).count()
}

/// How many bytes stand before the first `@`.
pub fn plain_len(text: &[u8]) -> usize
    ensures exact { result ≡ prefix_len is_no_at text.now }
    ensures within { result ≤ length text.now }
{
    text.iter().take_while(|c| **c != b'@').count()
}

/// How many bytes stand before the first blank.
fn part_len(text: &[u8]) -> usize
    ensures exact { result ≡ prefix_len is_no_blank text.now }
    ensures within { result ≤ length text.now }
{
    text.iter().take_while(|c| !is_blank(**c)).count()
}

/// What stands up to the next blank behind blanks, and what stands behind it; none where there are but blanks.
pub fn next_part(text: &[u8]) -> Option<(&[u8], &[u8])>
    ensures { MatchOption result (spec.parts text.now ≡ []) (λ x. IsNextPart text.now x.0.now x.1.now) }
{
    let text = without_blanks(text);
    if text.is_empty() {
        return None;
    }
    Some(text.split_at(part_len(text)))
}

/// The text without its first byte.
pub fn behind_first(text: &[u8]) -> &[u8]
    ensures { result.now ≡ drop 1 text.now }
{
    match text.split_first() {
        None => text,
        Some((_, behind)) => behind,
    }
}

/// Whether the first byte is this one.
pub fn begins_with(text: &[u8], byte: u8) -> bool
    ensures { result ≡ spec.begins_with (λ c. c == byte) text.now }
{
    match text.first() {
        None => false,
        Some(c) => *c == byte,
    }
}

/// Whether a name may begin with the first byte.
pub fn begins_name(text: &[u8]) -> bool
    ensures { result ≡ spec.begins_with byte.is_name_start text.now }
{
    match text.first() {
        None => false,
        Some(c) => is_name_start(*c),
    }
}

/// Whether it is a name: letters, digits and `_`, no digit first, at most 64.
pub fn is_name(text: &[u8]) -> bool
    ensures { result ≡ spec.is_name text.now }
{
    begins_name(text) && are_name_bytes(text) && text.len() <= LONGEST_NAME
}

/// Whether a name may have each byte.
fn are_name_bytes(text: &[u8]) -> bool
    ensures { result ≡ list_all byte.is_name_byte text.now }
{
    text.iter().all(|c| is_name_byte(*c))
}
