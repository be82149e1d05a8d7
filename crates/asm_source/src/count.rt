//! The words of a text, counted.

ghost use Rattle.std.specs.Prelude.{◌≡◌, ◌≤◌, map};
ghost use Rattle.asm_lines.specs.Seen.{seen, seen_content};
ghost use Rattle.asm_text.specs.Source as source;

use asm_lines::{Content, Line};

/// How many words the lines are: one for each instruction and each `.bits`.
///
/// It takes no memory. The rule is this project's own.
pub fn word_count(lines: &[Line]) -> u64
    ensures { result ≡ source.count_words (map seen lines.now) }
{
    let mut count = 0;
    for line in lines {
        count += words_of(&line.content);
    }
    count
}

/// How many words the content is.
pub fn words_of(content: &Content) -> u64
    ensures is { result ≡ source.words_of (seen_content content.now) }
    ensures one { result ≤ 1 }
{
    match content {
        Content::Nothing => 0,
        Content::Instruction(_) => 1,
        Content::Bits(_) => 1,
        Content::Data(_) => 0,
    }
}
