//! Single symbols in front.
ghost use Rattle.std.specs.Prelude.{◌<◌, length, map, IfOk};
ghost use Rattle.readings.specs.Reading.{Found};
ghost use Rattle.readings.specs.Seen.{seen, Says};
ghost use Rattle.nml_grammar.specs.Words as spec;

use nk_base::Text;
use nml_tree::{Name, Number, Quoted, Size};
use readings::{Sign, Stop};
use std::alloc::Global;

/// A name, and what stands behind it.
///
/// `Stuck` with how many symbols there are comes where no such symbol is in front; the other error is want of memory.
pub fn name<'t, 'a>(alloc: Global, signs: &'t [Sign<'a>]) -> Result<(Name, &'t [Sign<'a>]), Stop>
    ensures says { Says (λ x. Found x.0 (map seen x.1.now)) result spec.name (map seen signs.now) }
    ensures shorter { IfOk result (λ x. length x.1.now < length signs.now) }
{
    let Some((first, rest)) = signs.split_first() else {
        return Err(Stop::Stuck(signs.len()));
    };
    match *first {
        Sign::Named(at, text) => {
            let text = Text::from_bytes(alloc, text)?;
            Ok((Name { at, text }, rest))
        }
        Sign::Fixed(_, _) => Err(Stop::Stuck(signs.len())),
        Sign::Number(_, _) => Err(Stop::Stuck(signs.len())),
        Sign::Quoted(_, _) => Err(Stop::Stuck(signs.len())),
    }
}

/// A number of any size below 2^64, and what stands behind it.
///
/// `Stuck` with how many symbols there are comes where no such symbol is in front. It takes no memory.
pub fn number<'t, 'a>(signs: &'t [Sign<'a>]) -> Result<(Number, &'t [Sign<'a>]), Stop>
    ensures says { Says (λ x. Found x.0 (map seen x.1.now)) result spec.number (map seen signs.now) }
    ensures shorter { IfOk result (λ x. length x.1.now < length signs.now) }
{
    let Some((first, rest)) = signs.split_first() else {
        return Err(Stop::Stuck(signs.len()));
    };
    match *first {
        Sign::Number(at, value) => Ok((Number { at, value }, rest)),
        Sign::Fixed(_, _) => Err(Stop::Stuck(signs.len())),
        Sign::Named(_, _) => Err(Stop::Stuck(signs.len())),
        Sign::Quoted(_, _) => Err(Stop::Stuck(signs.len())),
    }
}

/// A string, and what stands behind it.
///
/// `Stuck` with how many symbols there are comes where no such symbol is in front; the other error is want of memory.
pub fn string<'t, 'a>(
    alloc: Global,
    signs: &'t [Sign<'a>],
) -> Result<(Quoted, &'t [Sign<'a>]), Stop>
    ensures says { Says (λ x. Found x.0 (map seen x.1.now)) result spec.string (map seen signs.now) }
    ensures shorter { IfOk result (λ x. length x.1.now < length signs.now) }
{
    let Some((first, rest)) = signs.split_first() else {
        return Err(Stop::Stuck(signs.len()));
    };
    match *first {
        Sign::Quoted(at, text) => {
            let text = Text::from_bytes(alloc, text)?;
            Ok((Quoted { at, text }, rest))
        }
        Sign::Fixed(_, _) => Err(Stop::Stuck(signs.len())),
        Sign::Named(_, _) => Err(Stop::Stuck(signs.len())),
        Sign::Number(_, _) => Err(Stop::Stuck(signs.len())),
    }
}

/// A size, which is a number or a name, and what stands behind it.
///
/// `Stuck` with how many symbols there are comes where no such symbol is in front; the other error is want of memory.
pub fn size<'t, 'a>(alloc: Global, signs: &'t [Sign<'a>]) -> Result<(Size, &'t [Sign<'a>]), Stop>
    ensures says { Says (λ x. Found x.0 (map seen x.1.now)) result spec.size (map seen signs.now) }
    ensures shorter { IfOk result (λ x. length x.1.now < length signs.now) }
{
    let Some((first, rest)) = signs.split_first() else {
        return Err(Stop::Stuck(signs.len()));
    };
    match *first {
        Sign::Number(at, value) => Ok((Size::Number(Number { at, value }), rest)),
        Sign::Named(at, text) => {
            let text = Text::from_bytes(alloc, text)?;
            Ok((Size::Name(Name { at, text }), rest))
        }
        Sign::Fixed(_, _) => Err(Stop::Stuck(signs.len())),
        Sign::Quoted(_, _) => Err(Stop::Stuck(signs.len())),
    }
}
