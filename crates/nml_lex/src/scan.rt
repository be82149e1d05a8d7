ghost use Rattle.std.specs.Prelude.{◌≤◌, length, map, MatchResult};
ghost use Rattle.nml_lex.specs.Lexed.{HasLexemes, IsLexFault, lexeme_of};

use crate::limit::is_within;
use crate::space::{behind_space, is_end};
use crate::word::token_length;
use nml_tree::DescFault;
use std::alloc::Global;

/// A token: its place in the bytes, counted from 0, and its bytes.
#[derive(Clone, Copy, Debug)]
pub struct Token<'a> {
    pub at: u32,
    pub text: &'a [u8],
}

/// The tokens of bytes, in order.
#[derive(Drop)]
pub struct Tokens<'a> {
    pub list: Vec<Token<'a>>,
}

/// The tokens of a description's bytes, each the slice of the bytes at its place; places rise.
///
/// `Lex` comes exactly where a byte begins no token, or the longest token there is over its limit, at the least such place. The other error
/// is want of memory. What a token is, and what stands between tokens, is this project's own rule; docs/LANGUAGES.md states it.
pub fn lex(alloc: Global, bytes: &[u8]) -> Result<Tokens<'_>, DescFault>
    requires { length bytes.now ≤ 4194304 }
    ensures { MatchResult result (λ t. HasLexemes bytes.now (map lexeme_of t.list.items)) (IsLexFault bytes.now) }
{
    let mut list = Vec::new(alloc);
    let mut rest = bytes;
    loop {
        if let Some(behind) = behind_space(rest) {
            rest = behind;
            continue;
        }
        if is_end(rest) {
            return Ok(Tokens { list });
        }
        let at = (bytes.len() - rest.len()) as u32;
        let (text, behind) = rest.split_at(token_length(rest));
        if text.is_empty() || !is_within(text) {
            return Err(DescFault::Lex { at: u64::from(at) });
        }
        list.push(Token { at, text })?;
        rest = behind;
    }
}
