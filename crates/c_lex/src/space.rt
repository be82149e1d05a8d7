//! What separates tokens, and the end of the bytes.

ghost use Rattle.std.specs.Prelude.{◌≡◌, not, ◌==◌, MatchOption};
ghost use Rattle.std.specs.List.{list_all};
ghost use Rattle.nml_lex.specs.Cut.{Begins, BeginsNone};
ghost use Rattle.nml_lex.specs.Form.{is_ended, is_shut, is_space};
ghost use Rattle.nml_lex.specs.Form as spec;

use nk_base::behind_prefix;
use nk_base::byte::is_gap;

/// What stands behind one blank or comment in front.
pub fn behind_space(bytes: &[u8]) -> Option<&[u8]>
    ensures { MatchOption result (BeginsNone is_space bytes.now) (λ rest. Begins is_space bytes.now rest.now) }
{
    if let Some(body) = behind_prefix(bytes, b"//") {
        return behind_line(body);
    }
    if let Some(body) = behind_prefix(bytes, b"/*") {
        return behind_block(body);
    }
    let (first, rest) = bytes.split_first()?;
    if is_gap(*first) { Some(rest) } else { None }
}

/// Whether these are the end of the bytes: nothing, or a comment from `//` without a line feed.
pub fn is_end(bytes: &[u8]) -> bool
    ensures { result ≡ spec.is_end bytes.now }
{
    match behind_prefix(bytes, b"//") {
        Some(body) => has_no_line_feed(body),
        None => bytes.is_empty(),
    }
}

/// Whether no byte is a line feed.
fn has_no_line_feed(bytes: &[u8]) -> bool
    ensures { result ≡ list_all (λ b. not (b == 10)) bytes.now }
{
    bytes.iter().all(|b| *b != b'\n')
}

/// What stands behind the first line feed.
fn behind_line(bytes: &[u8]) -> Option<&[u8]>
    ensures { MatchOption result (BeginsNone is_ended bytes.now) (λ rest. Begins is_ended bytes.now rest.now) }
{
    let mut rest = bytes;
    while let Some((first, behind)) = rest.split_first() {
        if *first == b'\n' {
            return Some(behind);
        }
        rest = behind;
    }
    None
}

/// What stands behind the first `*/`.
fn behind_block(bytes: &[u8]) -> Option<&[u8]>
    ensures { MatchOption result (BeginsNone is_shut bytes.now) (λ rest. Begins is_shut bytes.now rest.now) }
{
    let mut rest = bytes;
    loop {
        if let Some(behind) = behind_prefix(rest, b"*/") {
            return Some(behind);
        }
        let (_, behind) = rest.split_first()?;
        rest = behind;
    }
}
