use crate::WriteFault;
use nk_base::Memory;
use std::alloc::{AllocError, AllocFailed};

/// How a run of a program ends, as far as it went.
///
/// The names are this project's own.
#[derive(Clone, Copy, Debug, PartialEq, Eq)]
pub enum Stop {
    /// It goes on past the bound.
    Running,
    /// It has come to its end.
    Ended,
    /// It has met a trap of this number.
    Trap(u8),
    /// It reads the input, and nothing is left of that.
    Wants,
}

/// Why a run that prints was broken off.
///
/// The names are this project's own.
#[derive(Clone, Copy, Debug, PartialEq, Eq)]
pub enum EvalFault {
    /// The sink failed.
    Failed,
    /// Want of memory.
    Memory,
}

impl From<Memory> for EvalFault {
    ghost use Rattle.std.specs.Prelude.{◌≡◌};
    ghost use Rattle.nk_outside.specs.declared.stop.EvalFault.TheVariants.{Memory};

    ghost from_gives = { λ _ fault. fault ≡ Memory };

    fn from(_: Memory) -> EvalFault {
        EvalFault::Memory
    }
}

impl From<AllocError> for EvalFault {
    ghost use Rattle.std.specs.Prelude.{◌≡◌};
    ghost use Rattle.nk_outside.specs.declared.stop.EvalFault.TheVariants.{Memory};

    ghost from_gives = { λ _ fault. fault ≡ Memory };

    fn from(_: AllocError) -> EvalFault {
        EvalFault::Memory
    }
}

impl<T: Drop> From<AllocFailed<T>> for EvalFault {
    ghost use Rattle.std.specs.Prelude.{◌≡◌};
    ghost use Rattle.nk_outside.specs.declared.stop.EvalFault.TheVariants.{Memory};

    ghost from_gives = { λ _ fault. fault ≡ Memory };

    fn from(_: AllocFailed<T>) -> EvalFault {
        EvalFault::Memory
    }
}

impl From<WriteFault> for EvalFault {
    ghost use Rattle.std.specs.Prelude.{◌≡◌};
    ghost use Rattle.nk_outside.specs.Outcome.{of_write};

    ghost from_gives = { λ old fault. fault ≡ of_write old };

    fn from(fault: WriteFault) -> EvalFault {
        match fault {
            WriteFault::Failed => EvalFault::Failed,
            WriteFault::Memory => EvalFault::Memory,
        }
    }
}
