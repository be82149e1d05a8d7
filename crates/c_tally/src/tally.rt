//! What is counted of a node.

/// What is counted of an expression: whether a function is called in it, the nodes of the tree that is left of its value, those
/// below the root of the largest statement among its steps where its value is used and where it is a condition, both where no
/// call begins further right and where one does, and how many calls stand in it.
///
/// The form is this project's own.
#[derive(Clone, Copy)]
pub struct TermTally {
    pub call: bool,
    pub left: u32,
    pub largest: u32,
    pub tested: u32,
    pub later_largest: u32,
    pub later_tested: u32,
    pub calls: u32,
}

/// The same of arguments, whose values are used.
///
/// The form is this project's own.
#[derive(Clone, Copy)]
pub struct ArgumentsTally {
    pub call: bool,
    pub largest: u32,
    pub later_largest: u32,
    pub calls: u32,
}

/// The nodes below the root of the largest statement of a command, in `main` and in another function, and how many calls stand
/// in it.
///
/// The form is this project's own.
#[derive(Clone, Copy)]
pub struct CommandTally {
    pub in_main: u32,
    pub elsewhere: u32,
    pub calls: u32,
}

/// What is counted of a node, by what it writes out.
///
/// The form is this project's own.
#[derive(Clone, Copy)]
pub enum Tally {
    Term(TermTally),
    Arguments(ArgumentsTally),
    Command(CommandTally),
}
