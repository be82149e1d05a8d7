ghost use Rattle.std.specs.Prelude.{◌≡◌, ◌≢◌, ◌≤◌, Err, IfOk, OnOk, IsErrOf};
ghost use Rattle.std.specs.declared.option.Option.{Option};
ghost use Rattle.nk_outside.specs.Count.{Counts, counted, Rose, CountsFault};
ghost use Rattle.nk_outside.specs.Held.{Names, Reads, Lacks, IsTooLong, SameElsewhere, Holds};

use nk_base::{Memory, Text};
use std::alloc::{AllocError, AllocFailed, Global};

/// A file that is read has at most so many bytes, 4 MiB. The limit is this project's own.
pub const FILE_LIMIT: usize = 4_194_304;

/// Why a file isn't read.
#[derive(Clone, Copy, Debug, PartialEq, Eq)]
pub enum ReadFault {
    /// There is no file of the name.
    Absent,
    /// The system failed.
    Failed,
    /// The file has more than [`FILE_LIMIT`] bytes.
    TooLong,
    /// Want of memory.
    Memory,
}

/// Why bytes aren't put.
#[derive(Clone, Copy, Debug, PartialEq, Eq)]
pub enum WriteFault {
    /// The system failed.
    Failed,
    /// Want of memory.
    Memory,
}

/// Files by their names: a map from names to bytes, which may be told or not, and four counts.
///
/// No count falls. Each call raises the count of calls by one, except that it stays at 2^64-1. A count rose where it
/// is greater than before the call, or stands at 2^64-1. Whether the map is told never changes. All of this is this
/// project's own.
pub trait Files {
    /// The bytes of each name, where they are told.
    ghost held: { Self → Option Names };

    /// Calls, faults of reads and of writes, and reads of absent names so far.
    ghost counts: { Self → Counts };

    /// The bytes of a name, at most [`FILE_LIMIT`]. It changes no file.
    ///
    /// The count of read faults rises exactly where the answer is `Failed`, and that of absent names exactly where it is
    /// `Absent`; no write fault is counted. Where the map is told and the call met no other fault, `Absent` comes exactly
    /// where the name has no file, `TooLong` exactly where it has more than [`FILE_LIMIT`] bytes, and else the bytes are
    /// those of the name. Want of memory may come at any growth.
    fn read(&mut self, alloc: Global, name: &Text) -> Result<Vec<u8>, ReadFault>
        ensures held { held self.new ≡ held self.old }
        ensures bytes { IfOk result (λ bytes. Reads (held self.old) name.now bytes.items) }
        ensures lacks { IsErrOf result ReadFault.Absent → Lacks (held self.old) name.now }
        ensures too_long { IsErrOf result ReadFault.TooLong → IsTooLong (held self.old) name.now }
        ensures calls { (counts self.new).calls ≡ counted (counts self.old).calls }
        ensures failed { CountsFault (counts self.old).read_faults (counts self.new).read_faults (IsErrOf result ReadFault.Failed) }
        ensures absent { CountsFault (counts self.old).absents (counts self.new).absents (IsErrOf result ReadFault.Absent) }
        ensures kept { result ≢ Err ReadFault.Failed → (counts self.new).read_faults ≡ (counts self.old).read_faults }
        ensures found { result ≢ Err ReadFault.Absent → (counts self.new).absents ≡ (counts self.old).absents }
        ensures writes { (counts self.new).write_faults ≡ (counts self.old).write_faults };

    /// Puts the bytes under a name, in the place of those that it had. In every case the other files are as before.
    ///
    /// The count of write faults rises exactly where the answer is `Failed`; what the name has then is left open. Want of
    /// memory may come at any growth, and all files are as before then. No read fault and no absent name is counted.
    fn write(&mut self, alloc: Global, name: &Text, bytes: &[u8]) -> Result<(), WriteFault>
        ensures holds { OnOk result (Holds (held self.new) name.now bytes.now) }
        ensures others { SameElsewhere name.now (held self.old) (held self.new) }
        ensures memory { IsErrOf result WriteFault.Memory → held self.new ≡ held self.old }
        ensures calls { (counts self.new).calls ≡ counted (counts self.old).calls }
        ensures failed { CountsFault (counts self.old).write_faults (counts self.new).write_faults (IsErrOf result WriteFault.Failed) }
        ensures kept { result ≢ Err WriteFault.Failed → (counts self.new).write_faults ≡ (counts self.old).write_faults }
        ensures reads { (counts self.new).read_faults ≡ (counts self.old).read_faults }
        ensures absents { (counts self.new).absents ≡ (counts self.old).absents };
}

impl From<Memory> for ReadFault {
    ghost use Rattle.std.specs.Prelude.{◌≡◌};
    ghost use Rattle.nk_outside.specs.declared.files.ReadFault.TheVariants.{Memory};

    ghost from_gives = { λ _ fault. fault ≡ Memory };

    fn from(_: Memory) -> ReadFault {
        ReadFault::Memory
    }
}

impl From<AllocError> for ReadFault {
    ghost use Rattle.std.specs.Prelude.{◌≡◌};
    ghost use Rattle.nk_outside.specs.declared.files.ReadFault.TheVariants.{Memory};

    ghost from_gives = { λ _ fault. fault ≡ Memory };

    fn from(_: AllocError) -> ReadFault {
        ReadFault::Memory
    }
}

impl From<Memory> for WriteFault {
    ghost use Rattle.std.specs.Prelude.{◌≡◌};
    ghost use Rattle.nk_outside.specs.declared.files.WriteFault.TheVariants.{Memory};

    ghost from_gives = { λ _ fault. fault ≡ Memory };

    fn from(_: Memory) -> WriteFault {
        WriteFault::Memory
    }
}

impl From<AllocError> for WriteFault {
    ghost use Rattle.std.specs.Prelude.{◌≡◌};
    ghost use Rattle.nk_outside.specs.declared.files.WriteFault.TheVariants.{Memory};

    ghost from_gives = { λ _ fault. fault ≡ Memory };

    fn from(_: AllocError) -> WriteFault {
        WriteFault::Memory
    }
}

impl<T: Drop> From<AllocFailed<T>> for WriteFault {
    ghost use Rattle.std.specs.Prelude.{◌≡◌};
    ghost use Rattle.nk_outside.specs.declared.files.WriteFault.TheVariants.{Memory};

    ghost from_gives = { λ _ fault. fault ≡ Memory };

    fn from(_: AllocFailed<T>) -> WriteFault {
        WriteFault::Memory
    }
}
