use nk_base::Memory;
use std::alloc::{AllocError, AllocFailed};

/// Why a line of a transcript isn't taken.
#[derive(Clone, Copy)]
pub enum Fault {
    /// It isn't one of a transcript, or not where it stands.
    Line(&'static str),
    /// Want of memory.
    Memory,
}

impl From<Memory> for Fault {
    fn from(_: Memory) -> Fault {
        Fault::Memory
    }
}

impl From<AllocError> for Fault {
    fn from(_: AllocError) -> Fault {
        Fault::Memory
    }
}

impl<T: Drop> From<AllocFailed<T>> for Fault {
    fn from(_: AllocFailed<T>) -> Fault {
        Fault::Memory
    }
}
