//! Where the statements of a command stand.

/// How a function is left: `main` halts, another puts its value into its result cell and goes where its return cell says.
///
/// The form is this project's own.
#[derive(Clone, Copy)]
pub enum Leaving {
    Halts,
    Returns { result: u32, ret: u32 },
}

/// The labels that `break` and `continue` go to.
///
/// The form is this project's own.
#[derive(Clone, Copy)]
pub struct Ends {
    pub broke: u32,
    pub continued: u32,
}

/// Where the statements of a command stand: in a function that is left so, in a loop with these ends, and with the first step
/// cell and the first label that are free.
///
/// The form is this project's own.
#[derive(Clone, Copy)]
pub(crate) struct Spot {
    pub(crate) leaving: Leaving,
    pub(crate) ends: Ends,
    pub(crate) cell: u32,
    pub(crate) label: u32,
}
