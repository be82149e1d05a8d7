//! What the texts of a rule may do, from each of the things that may stand before them.

ghost use Rattle.std.specs.Prelude.{◌≡◌};
ghost use Rattle.nml_edges.specs.Summary as spec;

use crate::glyph::{Glyph, Last, last_behind, touches};

/// What may stand last behind some texts, each as the variant of `Last` of that name, and whether something may touch.
#[derive(Clone, Copy)]
pub struct Way {
    pub nothing: bool,
    pub plain: bool,
    pub number: bool,
    pub digit: bool,
    pub digit_seam: bool,
    pub minus: bool,
    pub minus_seam: bool,
    pub touch: bool,
}

/// For each thing that may stand before a text, what may stand last behind it, and whether something may touch.
#[derive(Clone, Copy)]
pub struct Summary {
    pub nothing: Way,
    pub plain: Way,
    pub number: Way,
    pub digit: Way,
    pub digit_seam: Way,
    pub minus: Way,
    pub minus_seam: Way,
}

/// There is no text.
fn nowhere() -> Way
    ensures { result ≡ spec.nowhere }
{
    Way {
        nothing: false,
        plain: false,
        number: false,
        digit: false,
        digit_seam: false,
        minus: false,
        minus_seam: false,
        touch: false,
    }
}

/// Nothing but this stands last; whether something touches.
fn only(last: Last, touch: bool) -> Way
    ensures { result ≡ spec.only last touch }
{
    let mut way = Way { touch, ..nowhere() };
    match last {
        Last::Nothing => way.nothing = true,
        Last::Plain => way.plain = true,
        Last::Number => way.number = true,
        Last::Digit => way.digit = true,
        Last::DigitSeam => way.digit_seam = true,
        Last::Minus => way.minus = true,
        Last::MinusSeam => way.minus_seam = true,
    }
    way
}

/// What the one or the other may do.
fn either(a: Way, b: Way) -> Way
    ensures { result ≡ spec.either a b }
{
    Way {
        nothing: a.nothing || b.nothing,
        plain: a.plain || b.plain,
        number: a.number || b.number,
        digit: a.digit || b.digit,
        digit_seam: a.digit_seam || b.digit_seam,
        minus: a.minus || b.minus,
        minus_seam: a.minus_seam || b.minus_seam,
        touch: a.touch || b.touch,
    }
}

/// The way, where it may be gone.
fn where_may(may: bool, way: Way) -> Way
    ensures { result ≡ spec.where_may may way }
{
    if may { way } else { nowhere() }
}

/// The way, and behind it what these texts may do.
fn through(way: Way, m: &Summary) -> Way
    ensures { result ≡ spec.through way m.now }
{
    let first = Way {
        touch: way.touch,
        ..nowhere()
    };
    let a = either(first, where_may(way.nothing, m.nothing));
    let b = either(a, where_may(way.plain, m.plain));
    let c = either(b, where_may(way.number, m.number));
    let d = either(c, where_may(way.digit, m.digit));
    let e = either(d, where_may(way.digit_seam, m.digit_seam));
    let f = either(e, where_may(way.minus, m.minus));
    either(f, where_may(way.minus_seam, m.minus_seam))
}

/// No text at all.
pub fn none() -> Summary
    ensures { result ≡ spec.none }
{
    Summary {
        nothing: nowhere(),
        plain: nowhere(),
        number: nowhere(),
        digit: nowhere(),
        digit_seam: nowhere(),
        minus: nowhere(),
        minus_seam: nowhere(),
    }
}

/// The empty text.
pub fn still() -> Summary
    ensures { result ≡ spec.still }
{
    Summary {
        nothing: only(Last::Nothing, false),
        plain: only(Last::Plain, false),
        number: only(Last::Number, false),
        digit: only(Last::Digit, false),
        digit_seam: only(Last::DigitSeam, false),
        minus: only(Last::Minus, false),
        minus_seam: only(Last::MinusSeam, false),
    }
}

/// What one glyph does from there.
fn step(last: Last, g: Glyph) -> Way
    ensures { result ≡ spec.step last g }
{
    only(last_behind(last, g), touches(last, g))
}

/// One glyph.
pub fn one(g: Glyph) -> Summary
    ensures { result ≡ spec.one g }
{
    Summary {
        nothing: step(Last::Nothing, g),
        plain: step(Last::Plain, g),
        number: step(Last::Number, g),
        digit: step(Last::Digit, g),
        digit_seam: step(Last::DigitSeam, g),
        minus: step(Last::Minus, g),
        minus_seam: step(Last::MinusSeam, g),
    }
}

/// A text of these and behind it one of those.
pub fn followed(a: &Summary, b: &Summary) -> Summary
    ensures { result ≡ spec.followed a.now b.now }
{
    Summary {
        nothing: through(a.nothing, b),
        plain: through(a.plain, b),
        number: through(a.number, b),
        digit: through(a.digit, b),
        digit_seam: through(a.digit_seam, b),
        minus: through(a.minus, b),
        minus_seam: through(a.minus_seam, b),
    }
}

/// A text of these or of those.
pub fn both(a: &Summary, b: &Summary) -> Summary
    ensures { result ≡ spec.both a.now b.now }
{
    Summary {
        nothing: either(a.nothing, b.nothing),
        plain: either(a.plain, b.plain),
        number: either(a.number, b.number),
        digit: either(a.digit, b.digit),
        digit_seam: either(a.digit_seam, b.digit_seam),
        minus: either(a.minus, b.minus),
        minus_seam: either(a.minus_seam, b.minus_seam),
    }
}

/// A part's texts, with the seams before and behind them.
pub fn seamed(m: &Summary) -> Summary
    ensures { result ≡ spec.seamed m.now }
{
    let seam = one(Glyph::Seam);
    followed(&seam, &followed(m, &seam))
}
