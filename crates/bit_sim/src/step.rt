/// What one step of a machine did.
#[derive(Clone, Copy, Debug, PartialEq, Eq)]
pub enum Step {
    /// An instruction ran: its output if there was one, and whether it took input.
    Went {
        out: Option<i64>,
        took: bool,
    },
    /// The instruction reads the input, and there is none; the machine is as before.
    Wants,
    /// The machine halted with this code, in this step or before.
    Halted {
        code: u8,
        out: Option<i64>,
        took: bool,
    },
    /// There is no word at PC; the machine is as before.
    NoWord {
        pc: u32,
    },
    /// The word at PC is no instruction; the machine is as before.
    BadWord {
        pc: u32,
    },
}
