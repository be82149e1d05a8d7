//! Numbers with which two shapes have one list of tokens.

/// Numbers for the fields of two shapes, each list in the order of its fields, with which both have one list of tokens.
#[derive(Debug, Drop)]
pub struct Agreement {
    pub first: Vec<i128>,
    pub second: Vec<i128>,
}
