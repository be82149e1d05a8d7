//! The first line of a text.

ghost use Rattle.std.specs.Prelude.{◌≡◌, ◌≤◌, length};
ghost use Rattle.std.specs.List.{prefix_len};
ghost use Rattle.asm_source.specs.FirstLine.{is_no_feed, IsFirstLine};

/// The first line, and what stands behind its line feed, where it has one.
pub fn first_line(text: &[u8]) -> (&[u8], Option<&[u8]>)
    ensures { IsFirstLine text.now result.0.now result.1 }
{
    let (line, rest) = text.split_at(line_len(text));
    match rest.split_first() {
        Some((_, more)) => (line, Some(more)),
        None => (line, None),
    }
}

/// How many bytes stand before the first line feed.
fn line_len(text: &[u8]) -> usize
    ensures value { result ≡ prefix_len is_no_feed text.now }
    ensures within { result ≤ length text.now }
{
    text.iter().take_while(|c| **c != b'\n').count()
}
