/// An initial value of a cell that isn't 0: the storage's number over `mem` and `reg` in the text's order, the cell of it, and the
/// value modulo 2^n, n being the cell's bits. The form is this project's own.
#[derive(Clone, Copy, Debug, PartialEq, Eq)]
pub struct DataCell {
    pub storage: u16,
    pub cell: u32,
    pub value: u64,
}

/// A program for one description: words and initial data. The form is this project's own.
#[derive(Debug, Drop)]
pub struct Image {
    /// The SHA-256 of the description's bytes.
    pub digest: [u8; 32],
    /// How many bits a word has, 8 to 64.
    pub width: u8,
    /// The words, each below 2^width; 65,536 at most.
    pub words: Vec<u128>,
    /// The data cells in rising order of storage, then cell; fewer than 2^32.
    pub inits: Vec<DataCell>,
}
