//! Kinds of bytes, in ASCII. The kinds are this project's own; no call takes memory.

ghost use Rattle.std.specs.Prelude.{◌≡◌};
ghost use Rattle.nk_base.specs.Byte as spec;

/// Whether a name may begin with the byte: a letter of either case, or `_`.
pub fn is_name_start(c: u8) -> bool
    ensures { result ≡ spec.is_name_start c }
{
    c.is_ascii_alphabetic() || c == b'_'
}

/// Whether a name may have the byte: a letter, a digit or `_`.
pub fn is_name_byte(c: u8) -> bool
    ensures { result ≡ spec.is_name_byte c }
{
    is_name_start(c) || c.is_ascii_digit()
}

/// Whether the byte is empty space within a line: a blank, a tab or a carriage return, and no line feed.
pub fn is_blank(c: u8) -> bool
    ensures { result ≡ spec.is_blank c }
{
    matches!(c, b' ' | b'\t' | b'\r')
}

/// Whether the byte is empty space between tokens, over lines: what [`is_blank`] takes, or a line feed.
pub fn is_gap(c: u8) -> bool
    ensures { result ≡ spec.is_gap c }
{
    is_blank(c) || c == b'\n'
}
