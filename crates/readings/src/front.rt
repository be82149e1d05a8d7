//! A keyword or a mark in front.
ghost use Rattle.std.specs.Prelude.{◌≡◌, ◌<◌, length, map, IfOk, IfSome};
ghost use Rattle.std.specs.Option.{option_map};
ghost use Rattle.readings.specs.Reading.{Found};
ghost use Rattle.readings.specs.Reading as single;
ghost use Rattle.readings.specs.Readings.{sign};
ghost use Rattle.readings.specs.Seen.{seen, Says};

use crate::sign::Sign;
use crate::stop::Stop;

/// The place of this keyword or mark, and what stands behind it, where it is in front. It takes no memory.
pub fn behind<'t, 'a>(text: &[u8], signs: &'t [Sign<'a>]) -> Option<(u32, &'t [Sign<'a>])>
    ensures behind { option_map (λ x. (x.0, map seen x.1.now)) result ≡ single.behind text.now (map seen signs.now) }
    ensures shorter { IfSome result (λ x. length x.1.now < length signs.now) }
{
    let (first, rest) = signs.split_first()?;
    match *first {
        Sign::Fixed(at, other) => {
            if other == text {
                Some((at, rest))
            } else {
                None
            }
        }
        Sign::Named(_, _) => None,
        Sign::Number(_, _) => None,
        Sign::Quoted(_, _) => None,
    }
}

/// This keyword or mark, for which its place stands, and what stands behind it; `Stuck` where it isn't in front. It takes no memory.
pub fn mark<'t, 'a>(text: &[u8], signs: &'t [Sign<'a>]) -> Result<(u32, &'t [Sign<'a>]), Stop>
    ensures says { Says (λ x. Found x.0 (map seen x.1.now)) result (sign text.now) (map seen signs.now) }
    ensures shorter { IfOk result (λ x. length x.1.now < length signs.now) }
{
    match behind(text, signs) {
        Some(found) => Ok(found),
        None => Err(Stop::Stuck(signs.len())),
    }
}
