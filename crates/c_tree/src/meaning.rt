//! What a name means at a place of the text.

/// Where a variable stands: its first cell among those of the globals, or among those of the function that names it.
///
/// The form is this project's own.
#[derive(Clone, Copy)]
pub enum Place {
    Global(u128),
    Local(u128),
}

/// What a name means. The form is this project's own.
#[derive(Clone, Copy)]
pub enum Meaning {
    /// A scalar.
    OneCell(Place),
    /// An array of this length.
    Cells(Place, u64),
    /// A function other than `main`: its number among those, how many parameters it has, whether it gives a value.
    Callee(usize, usize, bool),
    /// The function `main`.
    Main,
    /// `in`.
    In,
    /// `out`.
    Out,
}
