//! How many values were found, and the one.

/// No value, the one of a node, or more.
#[derive(Clone, Copy)]
pub enum Found {
    Nothing,
    One(u32),
    More,
}
