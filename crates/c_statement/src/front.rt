//! Single symbols in front.
ghost use Rattle.std.specs.Prelude.{◌≡◌, ◌<◌, ◌∷◌, length, map, IfOk, IfSome, MatchOption};
ghost use Rattle.readings.specs.Reading.{Found};
ghost use Rattle.readings.specs.Symbol.{Symbol};
ghost use Rattle.readings.specs.Seen.{seen, Says};
ghost use Rattle.c_grammar.specs.Words as spec;
ghost use Rattle.c_statement.specs.Seen.{HasNoWord};

use c_tree::{Name, Number, TypeWord};
use nk_base::Text;
use readings::{Sign, Stop, mark};
use std::alloc::Global;

/// A name, and what stands behind it.
///
/// `Stuck` with how many symbols there are comes where no such symbol is in front; the other error is want of memory.
pub fn name<'t, 'a>(alloc: Global, signs: &'t [Sign<'a>]) -> Result<(Name, &'t [Sign<'a>]), Stop>
    ensures says { Says (λ x. Found x.0 (map seen x.1.now)) result spec.name (map seen signs.now) }
    ensures shorter { IfOk result (λ x. length x.1.now < length signs.now) }
{
    let Some((first, rest)) = signs.split_first() else {
        return Err(Stop::Stuck(signs.len()));
    };
    match *first {
        Sign::Named(at, text) => {
            let text = Text::from_bytes(alloc, text)?;
            Ok((Name { at, text }, rest))
        }
        Sign::Fixed(_, _) => Err(Stop::Stuck(signs.len())),
        Sign::Number(_, _) => Err(Stop::Stuck(signs.len())),
        Sign::Quoted(_, _) => Err(Stop::Stuck(signs.len())),
    }
}

/// A number of any size below 2^64, and what stands behind it.
///
/// `Stuck` with how many symbols there are comes where no such symbol is in front. It takes no memory.
pub fn number<'t, 'a>(signs: &'t [Sign<'a>]) -> Result<(Number, &'t [Sign<'a>]), Stop>
    ensures says { Says (λ x. Found x.0 (map seen x.1.now)) result spec.number (map seen signs.now) }
    ensures shorter { IfOk result (λ x. length x.1.now < length signs.now) }
{
    let Some((first, rest)) = signs.split_first() else {
        return Err(Stop::Stuck(signs.len()));
    };
    match *first {
        Sign::Number(at, value) => Ok((Number { at, value }, rest)),
        Sign::Fixed(_, _) => Err(Stop::Stuck(signs.len())),
        Sign::Named(_, _) => Err(Stop::Stuck(signs.len())),
        Sign::Quoted(_, _) => Err(Stop::Stuck(signs.len())),
    }
}

/// `int`, and what stands behind it.
///
/// `Stuck` with how many symbols there are comes where that word is not in front. It takes no memory.
pub fn type_word<'t, 'a>(signs: &'t [Sign<'a>]) -> Result<(TypeWord, &'t [Sign<'a>]), Stop>
    ensures says { Says (λ x. Found x.0 (map seen x.1.now)) result spec.type_word_read (map seen signs.now) }
    ensures shorter { IfOk result (λ x. length x.1.now < length signs.now) }
{
    let (at, rest) = mark(b"int", signs)?;
    Ok((TypeWord::Int(at), rest))
}

/// The keyword or mark in front, its place, and what stands behind it; none where no such symbol is in front. It takes no memory.
pub fn fixed<'t, 'a>(signs: &'t [Sign<'a>]) -> Option<(u32, &'a [u8], &'t [Sign<'a>])>
    ensures front { MatchOption result (HasNoWord (map seen signs.now)) (λ x. map seen signs.now ≡ Symbol.Fixed x.0 x.1.now ∷ map seen x.2.now) }
    ensures shorter { IfSome result (λ x. length x.2.now < length signs.now) }
{
    let (first, rest) = signs.split_first()?;
    match *first {
        Sign::Fixed(at, text) => Some((at, text, rest)),
        Sign::Named(_, _) => None,
        Sign::Number(_, _) => None,
        Sign::Quoted(_, _) => None,
    }
}
