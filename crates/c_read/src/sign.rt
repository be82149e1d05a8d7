//! The symbols of tokens.
ghost use Rattle.std.specs.Prelude.{◌≡◌, ◌∷◌, ℕ, List, [], IfOk, MatchOption, map, All};
ghost use Rattle.nml_lex.specs.Lexed.{lexeme_of};
ghost use Rattle.readings.specs.Seen.{seen};
ghost use Rattle.c_read.specs.Seen.{IsSound};
ghost use Rattle.c_grammar.specs.Trees.{outside_places, symbol, word_symbol};

use c_lex::{is_keyword, is_outside, number_value};
use nk_base::Memory;
use nk_base::byte::is_name_start;
use nml_lex::Token;
use readings::Sign;
use std::alloc::Global;

/// The place of the first token that no program has.
pub fn first_outside(tokens: &[Token<'_>]) -> Option<u32>
    ensures { MatchOption result (outside_places (map lexeme_of tokens.now) ≡ [])
        (λ at. (others : List ℕ) × (outside_places (map lexeme_of tokens.now) ≡ at ∷ others)) }
{
    for token in tokens {
        if is_outside(token.text) {
            return Some(token.at);
        }
    }
    None
}

/// The symbols of tokens.
pub fn signs<'a>(alloc: Global, tokens: &[Token<'a>]) -> Result<Vec<Sign<'a>>, Memory>
    requires { All (λ t. IsSound (lexeme_of t)) tokens.now }
    ensures { IfOk result (λ v. map seen v.items ≡ map symbol (map lexeme_of tokens.now)) }
{
    let mut found = Vec::new(alloc);
    for token in tokens {
        found.push(sign_of(token))?;
    }
    Ok(found)
}

/// The symbol of a token.
fn sign_of<'a>(token: &Token<'a>) -> Sign<'a>
    requires { IsSound (lexeme_of token.now) }
    ensures { seen result ≡ symbol (lexeme_of token.now) }
{
    let Token { at, text } = *token;
    let Some(first) = text.first() else {
        return Sign::Fixed(at, text);
    };
    if is_name_start(*first) {
        word(at, text)
    } else if first.is_ascii_digit() {
        Sign::Number(at, number_value(text).unwrap_or(0))
    } else {
        Sign::Fixed(at, text)
    }
}

/// The symbol of a word, which is a keyword or a name.
fn word(at: u32, text: &[u8]) -> Sign<'_>
    ensures { seen result ≡ word_symbol at text.now }
{
    if is_keyword(text) {
        Sign::Fixed(at, text)
    } else {
        Sign::Named(at, text)
    }
}
