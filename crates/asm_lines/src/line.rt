//! What a line of assembly text says.

use nk_base::Text;
use nml_shape::Piece;

/// A line of assembly text: its label, and what stands behind it.
///
/// The form is this project's own.
#[derive(Debug, Drop)]
pub struct Line {
    pub label: Option<Text>,
    pub content: Content,
}

/// What stands behind the label: nothing, an instruction, `.bits` with its word, or `.data`.
///
/// The form is this project's own.
#[derive(Debug, Drop)]
pub enum Content {
    Nothing,
    Instruction(Tokens),
    Bits(u128),
    Data(Data),
}

/// The tokens of an instruction: those before the first reference, and the references in order. No piece is a field.
///
/// The form is this project's own.
#[derive(Debug, Drop)]
pub struct Tokens {
    pub front: Vec<Piece>,
    pub references: Vec<Reference>,
}

/// A reference, by the name of its label, and the tokens between it and the next one. No piece is a field.
///
/// The form is this project's own.
#[derive(Debug, Drop)]
pub struct Reference {
    pub name: Text,
    pub behind: Vec<Piece>,
}

/// An initial value: the name of a storage, the number of a cell, below 10^38, and the value, of at most 38 digits.
///
/// The form is this project's own.
#[derive(Debug, Drop)]
pub struct Data {
    pub name: Text,
    pub cell: u128,
    pub value: i128,
}
