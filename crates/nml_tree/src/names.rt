//! What is kept of a name, a number and a string. Of a keyword or a mark a tree keeps the place alone.

use nk_base::Text;

/// A name and its place.
///
/// A place, here and in the whole tree, is how many bytes of the text stand before: 0 is the first byte. The trees of
/// descriptions are this project's own form.
#[derive(Drop)]
pub struct Name {
    pub at: u32,
    pub text: Text,
}

/// A number by its value, however it was written, and its place.
#[derive(Clone, Copy)]
pub struct Number {
    pub at: u32,
    pub value: u64,
}

/// What stands between the quotes of a string, and the place of the first quote.
#[derive(Drop)]
pub struct Quoted {
    pub at: u32,
    pub text: Text,
}
