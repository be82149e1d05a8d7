//! The symbols of tokens.
ghost use Rattle.std.specs.Prelude.{◌≡◌, IfOk, map, All};
ghost use Rattle.nml_lex.specs.Lexed.{lexeme_of};
ghost use Rattle.readings.specs.Seen.{seen};
ghost use Rattle.nml_read.specs.Seen.{IsSound};
ghost use Rattle.nml_grammar.specs.Trees.{symbol, word_symbol};

use nk_base::Memory;
use nk_base::byte::is_name_start;
use nml_lex::{Token, number_value};
use nml_tree::is_keyword;
use readings::Sign;
use std::alloc::Global;

/// The symbols of tokens.
pub fn signs<'a>(alloc: Global, tokens: &[Token<'a>]) -> Result<Vec<Sign<'a>>, Memory>
    requires { All (λ t. IsSound (lexeme_of t)) tokens.now }
    ensures { IfOk result (λ v. map seen v.items ≡ map symbol (map lexeme_of tokens.now)) }
{
    let mut found = Vec::new(alloc);
    for token in tokens {
        found.push(sign_of(token))?;
    }
    Ok(found)
}

/// The symbol of a token.
fn sign_of<'a>(token: &Token<'a>) -> Sign<'a>
    requires { IsSound (lexeme_of token.now) }
    ensures { seen result ≡ symbol (lexeme_of token.now) }
{
    let Token { at, text } = *token;
    let Some(first) = text.first() else {
        return Sign::Fixed(at, text);
    };
    if is_name_start(*first) {
        word(at, text)
    } else if first.is_ascii_digit() {
        Sign::Number(at, number_value(text).unwrap_or(0))
    } else if *first == b'"' {
        Sign::Quoted(at, &text[1..text.len() - 1])
    } else {
        Sign::Fixed(at, text)
    }
}

/// The symbol of a word, which is a keyword or a name; `opn` is the same keyword as `op`.
fn word(at: u32, text: &[u8]) -> Sign<'_>
    ensures { seen result ≡ word_symbol at text.now }
{
    if !is_keyword(text) {
        Sign::Named(at, text)
    } else if text == b"opn".as_slice() {
        Sign::Fixed(at, &text[..2])
    } else {
        Sign::Fixed(at, text)
    }
}
