//! Symbols in memory.

/// A symbol of a text and its place, counted in bytes from 0; a text is the token's, without quotes where it is a string's.
///
/// The kinds of symbols are this project's own.
#[derive(Clone, Copy)]
pub enum Sign<'a> {
    /// A keyword or a mark.
    Fixed(u32, &'a [u8]),
    /// A name.
    Named(u32, &'a [u8]),
    /// A number by its value.
    Number(u32, u64),
    /// A string.
    Quoted(u32, &'a [u8]),
}
