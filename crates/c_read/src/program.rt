//! The program that bytes spell.
ghost use Rattle.std.specs.Prelude.{◌≡◌, ◌≤◌, ◌-◌, [], drop, length, map, MatchResult};
ghost use Rattle.readings.specs.Reading.{Found};
ghost use Rattle.readings.specs.Seen.{seen, Says};
ghost use Rattle.readings.specs.Symbol.{first_place, place};
ghost use Rattle.c_tree.specs.Items as tree;
ghost use Rattle.c_tree.specs.declared.fault.CFault.TheVariants as faults;
ghost use Rattle.c_grammar.specs.Programs.{program_read};
ghost use Rattle.c_grammar.specs.Trees.{IsTree, IsReadFault};
ghost use Rattle.c_read.specs.Seen.{AreSymbols};

use crate::item::item;
use crate::sign::{first_outside, signs};
use c_lex::{LexFault, lex};
use c_tree::{CFault, CTree, Global as CGlobal};
use nml_lex::Token;
use readings::{Sign, Stop};
use sqlite_items::Items;
use std::alloc::Global;

/// The one program whose spelling the bytes' tokens are.
///
/// `Lex` comes exactly where the bytes aren't tokens, at the least such place. Else `Outside` comes exactly where a token is a word or a mark
/// of C that is left out, at the first. Else `Syntax` comes exactly where no program has the tokens, at the least token up to which they begin
/// none, or at the length of the bytes where those end too early; a program is at most 200 nodes deep. The last error is want of memory. The
/// language is this project's own; docs/LANGUAGES.md states it.
pub fn read(alloc: Global, bytes: &[u8]) -> Result<CTree, CFault>
    requires { length bytes.now ≤ 4194304 }
    ensures { MatchResult result (IsTree bytes.now) (IsReadFault bytes.now) }
{
    let signs = symbols(alloc, bytes)?;
    match items(alloc, &signs) {
        Ok(globals) => Ok(CTree { globals }),
        Err(Stop::Stuck(left)) => {
            let at = place_before(&signs, left, bytes.len() as u32);
            Err(CFault::Syntax { at })
        }
        Err(Stop::Memory) => Err(CFault::Memory),
    }
}

/// The symbols of the bytes' tokens, where programs have each of them. The list of tokens goes with the call.
fn symbols<'a>(alloc: Global, bytes: &'a [u8]) -> Result<Vec<Sign<'a>>, CFault>
    requires { length bytes.now ≤ 4194304 }
    ensures { MatchResult result (λ v. AreSymbols bytes.now (map seen v.items)) (IsReadFault bytes.now) }
{
    let tokens = match lex(alloc, bytes) {
        Ok(tokens) => tokens,
        Err(LexFault::Stuck { at }) => return Err(no_token(at)),
        Err(LexFault::Memory) => return Err(CFault::Memory),
    };
    if let Some(at) = first_outside(&tokens.list) {
        return Err(CFault::Outside { at });
    }
    Ok(signs(alloc, &tokens.list)?)
}

/// The fault of bytes that begin no token at this place.
fn no_token(at: u64) -> CFault
    requires { at ≤ 4194304 }
    ensures { result ≡ faults.Lex at }
{
    CFault::Lex { at: at as u32 }
}

/// The globals, to the end of the symbols.
fn items(alloc: Global, signs: &[Sign<'_>]) -> Result<Items<CGlobal>, Stop>
    ensures { Says (λ x. Found (map tree.item x) []) result program_read (map seen signs.now) }
{
    let mut found = Items::new(alloc);
    // all of them, by a call, since each turn replaces them by what a call gives
    let (_, mut rest) = signs.split_at(0);
    while !rest.is_empty() {
        let (item, after) = item(alloc, rest)?;
        found.push(item)?;
        rest = after;
    }
    Ok(found)
}

/// The place of the first of the last so many symbols, or this end where there are none.
fn place_before(signs: &[Sign<'_>], left: usize, end: u32) -> u32
    ensures { result ≡ first_place end (drop (length signs.now - left) (map seen signs.now)) }
{
    match signs.get(signs.len().saturating_sub(left)) {
        Some(sign) => place_of(sign),
        None => end,
    }
}

/// The place of a symbol.
fn place_of(sign: &Sign<'_>) -> u32
    ensures { result ≡ place (seen sign.now) }
{
    match *sign {
        Sign::Fixed(at, _) => at,
        Sign::Named(at, _) => at,
        Sign::Number(at, _) => at,
        Sign::Quoted(at, _) => at,
    }
}
