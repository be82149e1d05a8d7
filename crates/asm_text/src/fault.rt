//! Why a text isn't assembled.

use nk_base::Memory;
use std::alloc::{AllocError, AllocFailed};

/// Why a text isn't assembled; of several faults the first here is told, at its first line. Lines count from 1.
///
/// The rules are this project's own.
#[derive(Clone, Copy, Debug, PartialEq, Eq)]
pub enum AsmFault {
    /// The line has a byte or a number that is none of assembly text, or a directive of another form.
    Lex { line: u64 },
    /// The line defines a label that was defined before, or refers to one that isn't defined.
    Label { line: u64 },
    /// No instruction has the line's tokens.
    NoMatch { line: u64 },
    /// The instruction that has them does something twice that may be done once.
    Conflict { line: u64 },
    /// There are so many words, more than PC can name.
    Full { count: u64 },
    /// The line gives a value to no cell of a `mem` or `reg`, or to PC, or to one that was given before, or the value is out of range.
    Data { line: u64 },
    /// Want of memory.
    Memory,
}

impl From<AllocError> for AsmFault {
    ghost use Rattle.std.specs.Prelude.{◌≡◌};
    ghost use Rattle.asm_text.specs.declared.fault.AsmFault.TheVariants.{Memory};

    ghost from_gives = { λ _ fault. fault ≡ Memory };

    fn from(_: AllocError) -> AsmFault {
        AsmFault::Memory
    }
}

impl<T: Drop> From<AllocFailed<T>> for AsmFault {
    ghost use Rattle.std.specs.Prelude.{◌≡◌};
    ghost use Rattle.asm_text.specs.declared.fault.AsmFault.TheVariants.{Memory};

    ghost from_gives = { λ _ fault. fault ≡ Memory };

    fn from(_: AllocFailed<T>) -> AsmFault {
        AsmFault::Memory
    }
}

impl From<Memory> for AsmFault {
    ghost use Rattle.std.specs.Prelude.{◌≡◌};
    ghost use Rattle.asm_text.specs.declared.fault.AsmFault.TheVariants.{Memory};

    ghost from_gives = { λ _ fault. fault ≡ Memory };

    fn from(_: Memory) -> AsmFault {
        AsmFault::Memory
    }
}
