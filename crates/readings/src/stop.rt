//! Why a reader stops.

use nk_base::Memory;
use std::alloc::{AllocError, AllocFailed};

/// Why a reader stops before the end of what it reads. The two reasons are this project's own.
#[derive(Clone, Copy, Debug)]
pub enum Stop {
    /// The first of so many symbols that are left fits nothing; 0 where there is none and one is wanted.
    Stuck(usize),
    /// Want of memory.
    Memory,
}

impl From<Memory> for Stop {
    ghost use Rattle.std.specs.Prelude.{◌≡◌};
    ghost use Rattle.readings.specs.declared.stop.Stop.TheVariants.{Memory};

    ghost from_gives = { λ _ stop. stop ≡ Memory };

    fn from(_: Memory) -> Stop {
        Stop::Memory
    }
}

impl From<AllocError> for Stop {
    ghost use Rattle.std.specs.Prelude.{◌≡◌};
    ghost use Rattle.readings.specs.declared.stop.Stop.TheVariants.{Memory};

    ghost from_gives = { λ _ stop. stop ≡ Memory };

    fn from(_: AllocError) -> Stop {
        Stop::Memory
    }
}

impl<T: Drop> From<AllocFailed<T>> for Stop {
    ghost use Rattle.std.specs.Prelude.{◌≡◌};
    ghost use Rattle.readings.specs.declared.stop.Stop.TheVariants.{Memory};

    ghost from_gives = { λ _ stop. stop ≡ Memory };

    fn from(_: AllocFailed<T>) -> Stop {
        Stop::Memory
    }
}
