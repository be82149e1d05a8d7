//! The words that a description keeps for itself.
ghost use Rattle.std.specs.Prelude.{◌≡◌};
ghost use Rattle.std.specs.List.{list_any};
ghost use Rattle.nk_base.specs.Text.{text_eq};
ghost use Rattle.nml_tree.specs.Keyword as spec;

/// The words that a description keeps for itself.
const KEYWORDS: [&[u8]; 28] = [
    b"let", b"type", b"mem", b"reg", b"trn", b"inp", b"out", b"op", b"opn", b"mode", b"syntax",
    b"image", b"action", b"format", b"if", b"then", b"else", b"endif", b"bool", b"card", b"int",
    b"fix", b"float", b"sat", b"bits", b"halt", b"true", b"false",
];

/// Whether the word is one that a description keeps for itself; none is a name.
///
/// Which words these are is this project's own rule.
pub fn is_keyword(word: &[u8]) -> bool
    ensures { result ≡ spec.is_keyword word.now }
{
    is_among(word, &KEYWORDS)
}

/// Whether the word is one of these.
fn is_among(word: &[u8], words: &[&[u8]]) -> bool
    ensures { result ≡ list_any (λ w. text_eq word.now w.now) words.now }
{
    words.iter().any(|other| word == *other)
}
