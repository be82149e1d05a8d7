//! The words that a program keeps for itself, and the words and marks of C that it doesn't have.

ghost use Rattle.std.specs.Prelude.{◌≡◌};
ghost use Rattle.std.specs.List.{list_any};
ghost use Rattle.nk_base.specs.Text.{text_eq};
ghost use Rattle.c_lex.specs.Form as spec;

use nk_base::byte::is_name_start;

/// The words that a program keeps for itself.
const KEYWORDS: [&[u8]; 10] = [
    b"int",
    b"void",
    b"if",
    b"else",
    b"while",
    b"do",
    b"for",
    b"break",
    b"continue",
    b"return",
];

/// The words of C that no program has.
const OUTSIDE_WORDS: [&[u8]; 24] = [
    b"auto",
    b"case",
    b"char",
    b"const",
    b"default",
    b"double",
    b"enum",
    b"extern",
    b"float",
    b"goto",
    b"inline",
    b"long",
    b"register",
    b"restrict",
    b"short",
    b"signed",
    b"sizeof",
    b"static",
    b"struct",
    b"switch",
    b"typedef",
    b"union",
    b"unsigned",
    b"volatile",
];

/// The marks of C that no program has.
const OUTSIDE_MARKS: [&[u8]; 18] = [
    b"/", b"%", b"?", b":", b".", b"->", b"*=", b"/=", b"%=", b"&=", b"|=", b"^=", b"<<=", b">>=",
    b"#", b"'", b"\"", b"\\",
];

/// Whether the word is one that a program keeps for itself; none is a name.
///
/// Which words these are is this project's own choice among the words of C.
pub fn is_keyword(word: &[u8]) -> bool
    ensures { result ≡ spec.is_keyword word.now }
{
    is_among(word, &KEYWORDS)
}

/// Whether the token is a word or a mark of C that no program has.
///
/// Which ones these are is this project's own choice among the words and marks of C.
pub fn is_outside(token: &[u8]) -> bool
    ensures { result ≡ spec.is_outside token.now }
{
    let Some(first) = token.first() else {
        return false;
    };
    if is_name_start(*first) {
        is_outside_word(token)
    } else {
        is_outside_mark(token)
    }
}

/// Whether the word is one of those that are left out.
fn is_outside_word(word: &[u8]) -> bool
    ensures { result ≡ spec.is_among spec.outside_words word.now }
{
    is_among(word, &OUTSIDE_WORDS)
}

/// Whether the mark is one of those that are left out.
fn is_outside_mark(mark: &[u8]) -> bool
    ensures { result ≡ spec.is_among spec.outside_marks mark.now }
{
    is_among(mark, &OUTSIDE_MARKS)
}

/// Whether the text is one of these.
fn is_among(text: &[u8], texts: &[&[u8]]) -> bool
    ensures { result ≡ list_any (λ t. text_eq text.now t.now) texts.now }
{
    texts.iter().any(|other| text == *other)
}
