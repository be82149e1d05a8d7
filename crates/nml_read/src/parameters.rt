//! The parameters of a rule, from symbols.
ghost use Rattle.std.specs.Prelude.{◌<◌, ◌≤◌, length, map, IfOk, codes};
ghost use Rattle.readings.specs.Reading.{Found};
ghost use Rattle.readings.specs.Readings.{further};
ghost use Rattle.readings.specs.Seen.{seen, Says};
ghost use Rattle.nml_grammar.specs.ReadingItems as items;

use crate::types::type_read;
use nml_statement::name;
use nml_tree::{Par, Pars};
use readings::{Sign, Stop, behind, mark};
use sqlite_items::Items;
use std::alloc::Global;

/// The parameters, none where a closing parenthesis is in front.
pub fn pars<'t, 'a>(
    alloc: Global,
    signs: &'t [Sign<'a>],
) -> Result<(Option<Pars>, &'t [Sign<'a>]), Stop>
    ensures says { Says (λ x. Found x.0 (map seen x.1.now)) result items.pars (map seen signs.now) }
    ensures shorter { IfOk result (λ x. length x.1.now ≤ length signs.now) }
{
    match behind(b")", signs) {
        Some(_) => Ok((None, signs)),
        None => {
            let (pars, rest) = some_pars(alloc, signs)?;
            Ok((Some(pars), rest))
        }
    }
}

/// A parameter, and others behind commas.
fn some_pars<'t, 'a>(alloc: Global, signs: &'t [Sign<'a>]) -> Result<(Pars, &'t [Sign<'a>]), Stop>
    ensures says { Says (λ x. Found x.0 (map seen x.1.now)) result items.some_pars (map seen signs.now) }
    ensures shorter { IfOk result (λ x. length x.1.now < length signs.now) }
{
    let (first, rest) = par(alloc, signs)?;
    let (others, rest) = further_pars(alloc, rest)?;
    let pars = Pars {
        first,
        rest: others,
    };
    Ok((pars, rest))
}

/// Parameters, each behind a comma.
fn further_pars<'t, 'a>(
    alloc: Global,
    signs: &'t [Sign<'a>],
) -> Result<(Items<(u32, Par)>, &'t [Sign<'a>]), Stop>
    ensures says { Says (λ x. Found x.0 (map seen x.1.now)) result (further (codes ",") items.par) (map seen signs.now) }
    ensures shorter { IfOk result (λ x. length x.1.now ≤ length signs.now) }
{
    let mut found = Items::new(alloc);
    // all of them, by a call, since each turn replaces them by what a call gives
    let (_, mut rest) = signs.split_at(0);
    while let Some((comma, after)) = behind(b",", rest) {
        let (par, after) = par(alloc, after)?;
        found.push((comma, par))?;
        rest = after;
    }
    Ok((found, rest))
}

/// `NAME : type`.
fn par<'t, 'a>(alloc: Global, signs: &'t [Sign<'a>]) -> Result<(Par, &'t [Sign<'a>]), Stop>
    ensures says { Says (λ x. Found x.0 (map seen x.1.now)) result items.par (map seen signs.now) }
    ensures shorter { IfOk result (λ x. length x.1.now < length signs.now) }
{
    let (name, rest) = name(alloc, signs)?;
    let (colon, rest) = mark(b":", rest)?;
    let (ty, rest) = type_read(alloc, rest)?;
    Ok((Par { name, colon, ty }, rest))
}
