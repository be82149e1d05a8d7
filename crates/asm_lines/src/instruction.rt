//! The tokens of an instruction.

ghost use Rattle.std.specs.Prelude.{◌≡◌, ◌≤◌, ◌==◌, ◌&&◌, length, IfOk, IsTrue};
ghost use Rattle.std.specs.List.{list_all, slice_split};
ghost use Rattle.nml_tree.specs.Directives as marks;
ghost use Rattle.nml_tree.specs.LineToken.{line_tokens};
ghost use Rattle.asm_lines.specs.Line as spec;
ghost use Rattle.asm_lines.specs.Seen.{is_at, seen_tokens, AreTokens, IsContent, IsReference, AreReferences, IsContentOf, BeginsPart, others, run_with};

use crate::front::{is_name, name_len, plain_len};
use crate::line::{Content, Reference, Tokens};
use nk_base::byte::{is_blank, is_name_byte};
use nk_base::{Memory, Text};
use nml_line::push_tokens;
use nml_shape::Piece;
use std::alloc::Global;

/// The most digits that a number has.
const MOST_DIGITS: u32 = 38;

/// The instruction that the line is, or nothing; none where its form is wrong.
pub fn instruction(alloc: Global, text: &[u8]) -> Result<Option<Content>, Memory>
    ensures { IfOk result (λ found. IsContent found (spec.instruction (slice_split is_at text.now))) }
{
    let (front, rest) = text.split_at(plain_len(text));
    if !are_tokens(front) {
        return Ok(None);
    }
    let front = tokens(alloc, front)?;
    match references(alloc, rest)? {
        None => Ok(None),
        Some(references) => Ok(Some(content_of(Tokens { front, references }))),
    }
}

/// The references of a text that begins with one; none where the form of one is wrong.
fn references(alloc: Global, text: &[u8]) -> Result<Option<Vec<Reference>>, Memory>
    requires { BeginsPart text.now }
    ensures { IfOk result (λ found. AreReferences (others text.now) found) }
{
    let mut references = Vec::new(alloc);
    let mut rest = text;
    while let Some((_, behind)) = rest.split_first() {
        let (part, more) = behind.split_at(plain_len(behind));
        if !is_reference(part) {
            return Ok(None);
        }
        let reference = reference(alloc, part)?;
        references.push(reference)?;
        rest = more;
    }
    Ok(Some(references))
}

/// The reference whose name and tokens these are.
fn reference(alloc: Global, part: &[u8]) -> Result<Reference, Memory>
    requires { IsTrue (spec.is_reference part.now) }
    ensures { IfOk result (λ r. IsReference part.now r) }
{
    let (name, behind) = part.split_at(name_len(part));
    let name = Text::from_bytes(alloc, name)?;
    let behind = tokens(alloc, behind)?;
    Ok(Reference { name, behind })
}

/// The tokens of a text without a reference.
fn tokens(alloc: Global, text: &[u8]) -> Result<Vec<Piece>, Memory>
    requires { IsTrue (spec.are_tokens text.now) }
    ensures { IfOk result (λ pieces. AreTokens pieces.items (line_tokens text.now)) }
{
    let mut pieces = Vec::new(alloc);
    push_tokens(alloc, text, &mut pieces)?;
    Ok(pieces)
}

/// The instruction with these tokens, or nothing where there are none.
fn content_of(tokens: Tokens) -> Content
    ensures { IsContentOf tokens result }
{
    if are_none(&tokens) {
        Content::Nothing
    } else {
        Content::Instruction(tokens)
    }
}

/// Whether there are no tokens.
fn are_none(tokens: &Tokens) -> bool
    ensures { result ≡ ((length tokens.now.front.items == 0) && (length tokens.now.references.items == 0)) }
{
    tokens.front.is_empty() && tokens.references.is_empty()
}

/// Whether it is the name of a label and tokens.
fn is_reference(text: &[u8]) -> bool
    ensures { result ≡ spec.is_reference text.now }
{
    let (name, behind) = text.split_at(name_len(text));
    is_name(name) && are_tokens(behind)
}

/// Whether each byte may stand in tokens, and no number has over 38 digits.
fn are_tokens(text: &[u8]) -> bool
    ensures { result ≡ spec.are_tokens text.now }
{
    are_token_bytes(text) && are_short(text)
}

/// Whether each byte may stand in tokens.
fn are_token_bytes(text: &[u8]) -> bool
    ensures { result ≡ list_all spec.is_token_byte text.now }
{
    text.iter().all(|c| is_token_byte(*c))
}

/// Whether the byte is one of a token, or between two.
fn is_token_byte(c: u8) -> bool
    ensures { result ≡ spec.is_token_byte c }
{
    is_name_byte(c) || is_blank(c) || is_mark(c)
}

/// Whether the byte is a mark of assembly text.
fn is_mark(c: u8) -> bool
    ensures { result ≡ marks.is_mark c }
{
    b",()[]{}<>+-*/=&|^~!?#$".contains(&c)
}

/// Whether no run of digits is longer than 38.
fn are_short(text: &[u8]) -> bool
    ensures { result ≡ spec.has_short_runs text.now }
{
    let mut run = 0u32;
    let mut rest = text;
    while let Some((c, behind)) = rest.split_first() {
        run = run_with(run, *c);
        if run > MOST_DIGITS {
            return false;
        }
        rest = behind;
    }
    true
}

/// How many digits stand in a row with this byte behind so many.
fn run_with(run: u32, c: u8) -> u32
    requires { run ≤ 38 }
    ensures { result ≡ run_with run c }
{
    if c.is_ascii_digit() { run + 1 } else { 0 }
}
