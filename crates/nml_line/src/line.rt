//! The tokens of a line of assembly text.

ghost use Rattle.std.specs.Prelude.{◌≡◌, ◌≤◌, ◌++◌, ◌∷◌, map, length, neg_ℤ, pos, IfOk, OnOk};
ghost use Rattle.std.specs.Char.{is_ascii_digit};
ghost use Rattle.std.specs.List.{AllPass, prefix_len};
ghost use Rattle.std.specs.Str.Parse.{digits_value};
ghost use Rattle.nk_base.specs.Byte as byte;
ghost use Rattle.nml_line.specs.Pushed.{HasShortNumbers, IsPushed, marks};
ghost use Rattle.nml_shape.specs.Shown.{token_of};
ghost use Rattle.nml_tree.specs.LineToken.{line_tokens};
ghost use Rattle.nml_tree.specs.Outline.{Written};

use nk_base::byte::{is_blank, is_name_start};
use nk_base::{Memory, Text, digits_len, number_of_digits};
use nml_shape::Piece;
use std::alloc::Global;

/// Appends the tokens of the line: words of letters and `_`, numbers, each with a `-` that touches it on the left as its sign, and all
/// other bytes but blanks.
///
/// Each byte is looked at a fixed number of times. The rule is this project's own. The one error is want of memory.
pub fn push_tokens(alloc: Global, text: &[u8], tokens: &mut Vec<Piece>) -> Result<(), Memory>
    requires { HasShortNumbers text.now }
    ensures { OnOk result (map token_of tokens.new.items ≡ map token_of tokens.old.items ++ map Written (line_tokens text.now)) }
{
    let mut rest = text;
    while let Some((c, behind)) = rest.split_first() {
        rest = push_token(alloc, rest, *c, behind, tokens)?;
    }
    Ok(())
}

/// Appends the token in front of the line, which begins with this byte; a blank is none. Answers what stands behind it.
fn push_token<'a>(
    alloc: Global,
    line: &'a [u8],
    c: u8,
    behind: &'a [u8],
    tokens: &mut Vec<Piece>,
) -> Result<&'a [u8], Memory>
    requires line { line.now ≡ c ∷ behind.now }
    requires short { HasShortNumbers line.now }
    ensures { IfOk result (λ rest. IsPushed line.now tokens.old.items tokens.new.items rest.now) }
{
    if is_name_start(c) {
        let (word, rest) = line.split_at(word_len(line));
        tokens.push(Piece::Word(Text::from_bytes(alloc, word)?))?;
        return Ok(rest);
    }
    if c.is_ascii_digit() {
        let (digits, rest) = line.split_at(digits_len(line));
        tokens.push(Piece::Number(number(digits)))?;
        return Ok(rest);
    }
    if c == b'-' {
        return push_signed(line, behind, tokens);
    }
    push_mark(c, tokens)?;
    Ok(behind)
}

/// The same of a line that begins with `-`, behind which these bytes stand.
fn push_signed<'a>(
    line: &[u8],
    behind: &'a [u8],
    tokens: &mut Vec<Piece>,
) -> Result<&'a [u8], Memory>
    requires line { line.now ≡ 45 ∷ behind.now }
    requires short { HasShortNumbers line.now }
    ensures { IfOk result (λ rest. IsPushed line.now tokens.old.items tokens.new.items rest.now) }
{
    let (digits, rest) = behind.split_at(digits_len(behind));
    if digits.is_empty() {
        tokens.push(Piece::Mark(b'-'))?;
        return Ok(behind);
    }
    tokens.push(Piece::Number(negative(digits)))?;
    Ok(rest)
}

/// Appends the mark that the byte is, unless it is a blank.
fn push_mark(c: u8, tokens: &mut Vec<Piece>) -> Result<(), Memory>
    ensures { OnOk result (tokens.new.items ≡ tokens.old.items ++ marks c) }
{
    if !is_blank(c) {
        tokens.push(Piece::Mark(c))?;
    }
    Ok(())
}

/// How many letters the line begins with; `_` counts as one.
fn word_len(line: &[u8]) -> usize
    ensures exact { result ≡ prefix_len byte.is_name_start line.now }
    ensures within { result ≤ length line.now }
{
    line.iter().take_while(|c| is_name_start(**c)).count()
}

/// The number that the digits write.
fn number(digits: &[u8]) -> i128
    requires digits { AllPass is_ascii_digit digits.now }
    requires short { length digits.now ≤ 38 }
    ensures { result ≡ pos (digits_value 10 digits.now) }
{
    match number_of_digits(digits) {
        None => 0,
        Some(n) => n as i128,
    }
}

/// The same number behind a `-`.
fn negative(digits: &[u8]) -> i128
    requires digits { AllPass is_ascii_digit digits.now }
    requires short { length digits.now ≤ 38 }
    ensures { result ≡ neg_ℤ (pos (digits_value 10 digits.now)) }
{
    -number(digits)
}
