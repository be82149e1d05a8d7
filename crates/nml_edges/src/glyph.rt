//! The characters of a text by what they may touch, and what stands last.

ghost use Rattle.std.specs.Prelude.{◌≡◌};
ghost use Rattle.nml_edges.specs.Glyph as spec;

/// A character of a text by its kind, a number, or where a part's text begins or ends.
#[derive(Clone, Copy)]
pub enum Glyph {
    Digit,
    /// `-`.
    Minus,
    Blank,
    Other,
    Number,
    Seam,
}

/// What stands last in a text.
#[derive(Clone, Copy)]
pub enum Last {
    /// Nothing, or nothing but blanks.
    Nothing,
    /// Something that touches nothing.
    Plain,
    Number,
    Digit,
    /// A digit, and behind it the end of its string.
    DigitSeam,
    /// `-`.
    Minus,
    /// A `-`, and behind it the end of its string.
    MinusSeam,
}

/// The kind of a character.
pub fn glyph_of(c: u8) -> Glyph
    ensures { result ≡ spec.glyph_of c }
{
    if c.is_ascii_digit() {
        Glyph::Digit
    } else if c == 45 {
        Glyph::Minus
    } else if c == 32 || c == 9 || c == 13 {
        Glyph::Blank
    } else {
        Glyph::Other
    }
}

/// What stands last behind a blank.
fn behind_blank(last: Last) -> Last
    ensures { result ≡ spec.behind_blank last }
{
    match last {
        Last::Nothing => Last::Nothing,
        Last::Plain => Last::Plain,
        Last::Number => Last::Plain,
        Last::Digit => Last::Plain,
        Last::DigitSeam => Last::Plain,
        Last::Minus => Last::Plain,
        Last::MinusSeam => Last::Plain,
    }
}

/// What stands last behind the end of a string.
fn behind_seam(last: Last) -> Last
    ensures { result ≡ spec.behind_seam last }
{
    match last {
        Last::Nothing => Last::Nothing,
        Last::Plain => Last::Plain,
        Last::Number => Last::Number,
        Last::Digit => Last::DigitSeam,
        Last::DigitSeam => Last::DigitSeam,
        Last::Minus => Last::MinusSeam,
        Last::MinusSeam => Last::MinusSeam,
    }
}

/// What stands last behind one more.
pub fn last_behind(last: Last, g: Glyph) -> Last
    ensures { result ≡ spec.last_behind last g }
{
    match g {
        Glyph::Digit => Last::Digit,
        Glyph::Minus => Last::Minus,
        Glyph::Blank => behind_blank(last),
        Glyph::Other => Last::Plain,
        Glyph::Number => Last::Number,
        Glyph::Seam => behind_seam(last),
    }
}

/// Whether a digit touches what stands last.
fn digit_touches(last: Last) -> bool
    ensures { result ≡ spec.digit_touches last }
{
    match last {
        Last::Nothing => false,
        Last::Plain => false,
        Last::Number => true,
        Last::Digit => false,
        Last::DigitSeam => true,
        Last::Minus => false,
        Last::MinusSeam => true,
    }
}

/// Whether a `-` touches what stands last.
fn minus_touches(last: Last) -> bool
    ensures { result ≡ spec.minus_touches last }
{
    match last {
        Last::Nothing => false,
        Last::Plain => false,
        Last::Number => true,
        Last::Digit => false,
        Last::DigitSeam => true,
        Last::Minus => false,
        Last::MinusSeam => false,
    }
}

/// Whether a number touches what stands last.
fn number_touches(last: Last) -> bool
    ensures { result ≡ spec.number_touches last }
{
    match last {
        Last::Nothing => false,
        Last::Plain => false,
        Last::Number => true,
        Last::Digit => true,
        Last::DigitSeam => true,
        Last::Minus => true,
        Last::MinusSeam => true,
    }
}

/// Whether it touches what stands last.
pub fn touches(last: Last, g: Glyph) -> bool
    ensures { result ≡ spec.touches last g }
{
    match g {
        Glyph::Digit => digit_touches(last),
        Glyph::Minus => minus_touches(last),
        Glyph::Blank => false,
        Glyph::Other => false,
        Glyph::Number => number_touches(last),
        Glyph::Seam => false,
    }
}
