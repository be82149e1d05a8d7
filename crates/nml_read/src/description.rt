//! The description that bytes spell.
ghost use Rattle.std.specs.Prelude.{◌≡◌, ◌≤◌, ◌-◌, [], drop, length, map, MatchResult};
ghost use Rattle.nml_tree.specs.Floats.{float_places};
ghost use Rattle.readings.specs.Reading.{Found};
ghost use Rattle.nml_grammar.specs.ReadingItems.{item_list};
ghost use Rattle.readings.specs.Seen.{seen, Says};
ghost use Rattle.readings.specs.Symbol.{first_place, place};
ghost use Rattle.nml_grammar.specs.Trees.{HasFloatFault, IsTree, IsReadFault};

use crate::float::first_float;
use crate::item::item;
use crate::sign::signs;
use nml_lex::lex;
use nml_tree::{Desc, DescFault, Item};
use readings::{Sign, Stop};
use sqlite_items::Items;
use std::alloc::Global;

/// The one description whose spelling the bytes' tokens are, which has no type `float`.
///
/// `Lex` comes exactly where the bytes aren't tokens, at the least such place. Else `Syntax` comes exactly where no description has the tokens,
/// at the least token up to which they begin none, or at the length of the bytes where those end too early; a description is at most 200 nodes
/// deep. Else `Float` comes exactly where the description has a type `float`, at the first. The last error is want of memory. The language is
/// this project's own; docs/LANGUAGES.md states it.
pub fn read(alloc: Global, bytes: &[u8]) -> Result<Desc, DescFault>
    requires { length bytes.now ≤ 4194304 }
    ensures { MatchResult result (λ d. IsTree bytes.now d × (float_places d ≡ [])) (IsReadFault bytes.now) }
{
    let tokens = lex(alloc, bytes)?;
    let signs = signs(alloc, &tokens.list)?;
    match items(alloc, &signs) {
        Ok(items) => without_float(Desc { items }),
        Err(Stop::Stuck(left)) => {
            let at = place_before(&signs, left, bytes.len() as u32);
            Err(DescFault::Syntax { at: u64::from(at) })
        }
        Err(Stop::Memory) => Err(DescFault::Memory),
    }
}

/// The items, to the end of the symbols.
fn items(alloc: Global, signs: &[Sign<'_>]) -> Result<Items<Item>, Stop>
    ensures { Says (λ x. Found x []) result item_list (map seen signs.now) }
{
    let mut found = Items::new(alloc);
    // all of them, by a call, since each turn replaces them by what a call gives
    let (_, mut rest) = signs.split_at(0);
    while !rest.is_empty() {
        let (item, after) = item(alloc, rest)?;
        found.push(item)?;
        rest = after;
    }
    Ok(found)
}

/// The place of the first of the last so many symbols, or this end where there are none.
fn place_before(signs: &[Sign<'_>], left: usize, end: u32) -> u32
    ensures { result ≡ first_place end (drop (length signs.now - left) (map seen signs.now)) }
{
    match signs.get(signs.len().saturating_sub(left)) {
        Some(sign) => place_of(sign),
        None => end,
    }
}

/// The place of a symbol.
fn place_of(sign: &Sign<'_>) -> u32
    ensures { result ≡ place (seen sign.now) }
{
    match *sign {
        Sign::Fixed(at, _) => at,
        Sign::Named(at, _) => at,
        Sign::Number(at, _) => at,
        Sign::Quoted(at, _) => at,
    }
}

/// The description, where it has no type `float`.
fn without_float(desc: Desc) -> Result<Desc, DescFault>
    ensures { MatchResult result (λ d. (d ≡ desc) × (float_places d ≡ [])) (λ fault. HasFloatFault desc fault) }
{
    match first_float(&desc) {
        Some(at) => Err(DescFault::Float { at: u64::from(at) }),
        None => Ok(desc),
    }
}
