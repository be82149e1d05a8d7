//! What a name is declared as.

use nk_base::Ty;

/// What a name is declared as. Of a type with more than 65 bits it is told as one of 65, which is no type either.
#[derive(Clone, Copy)]
pub enum Known {
    /// The number of a `let`.
    Constant(i128),
    /// A type.
    TypeName(Ty),
    /// How many cells a `mem` or a `reg` has, 0 where its size is misused, and their type.
    Storage(u128, Ty),
    /// The type of a transitory.
    Trn(Ty),
    /// The type of the input.
    Inp(Ty),
    /// The type of the output.
    Out(Ty),
    /// An or-rule; whether it is one of modes.
    Or(bool),
    /// An and-rule; whether it is a mode.
    And(bool),
}

/// What a parameter is.
#[derive(Clone, Copy)]
pub enum Parameter {
    /// A field, with its type.
    Field(Ty),
    /// A part, with the number of the item that declares its rule.
    Part(usize),
}
