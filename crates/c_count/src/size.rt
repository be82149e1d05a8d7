//! What is counted of a node.

/// What is counted of an expression: whether a function is called in it, its step cells where its value is used and where it
/// is a condition, both where no call begins further right and where one does, and its labels as a value, as a condition that
/// goes on elsewhere where it holds, and as one that does where it fails.
///
/// The form is this project's own.
#[derive(Clone, Copy)]
pub struct TermSize {
    pub call: bool,
    pub cells: u32,
    pub tested: u32,
    pub later_cells: u32,
    pub later_tested: u32,
    pub marks: u32,
    pub marks_when: u32,
    pub marks_unless: u32,
}

/// The same of arguments.
///
/// The form is this project's own.
#[derive(Clone, Copy)]
pub struct TermsSize {
    pub call: bool,
    pub cells: u32,
    pub later_cells: u32,
    pub marks: u32,
}

/// The step cells and labels of a command.
///
/// The form is this project's own.
#[derive(Clone, Copy)]
pub struct CommandSize {
    pub cells: u32,
    pub marks: u32,
}

/// What is counted of a node, by what it writes out.
///
/// The form is this project's own.
#[derive(Clone, Copy)]
pub enum Size {
    Term(TermSize),
    Arguments(TermsSize),
    Command(CommandSize),
}
