use crate::fault::Fault;
use nk_base::Text;
use std::alloc::Global;

/// The words of a call: blanks stand between them, and a word with blanks, or with no bytes, in double quotes.
pub fn words_of(alloc: Global, line: &str) -> Result<Vec<Text>, Fault> {
    let mut words = Vec::new(alloc);
    let mut word = None;
    let mut is_quoted = false;
    for byte in line.as_bytes() {
        if *byte == b'"' {
            is_quoted = !is_quoted;
            word = Some(word.unwrap_or(Text::new(alloc)));
        } else if *byte == b' ' && !is_quoted {
            if let Some(ended) = word {
                words.push(ended)?;
            }
            word = None;
        } else {
            let mut longer = word.unwrap_or(Text::new(alloc));
            longer.push(*byte)?;
            word = Some(longer);
        }
    }
    if is_quoted {
        return Err(Fault::Line("a word has no closing quote"));
    }
    if let Some(last) = word {
        words.push(last)?;
    }
    Ok(words)
}

/// The one word of the line.
pub fn word_of(alloc: Global, line: &str) -> Result<Text, Fault> {
    let mut words = words_of(alloc, line)?;
    match words.pop() {
        Some(word) if words.is_empty() => Ok(word),
        _ => Err(Fault::Line("here one name is wanted")),
    }
}
