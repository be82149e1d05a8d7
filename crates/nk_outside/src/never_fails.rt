ghost use Rattle.std.specs.Prelude.{◌≡◌, ◌++◌, [], Some, is_ok, OnOk, OnErr, IfErr, IsOk, IsErrOf, if◌then◌else◌};
ghost use Rattle.nk_outside.specs.Count.{CountsFault};
ghost use Rattle.nk_outside.specs.Taken.{Took, TookFront};

use crate::{Sink, WriteFault};
use std::alloc::Global;

/// A sink in memory that no call fails: its count of faults is 0 always. Memory may run out.
#[derive(Drop)]
pub struct NeverFails {
    /// What was taken so far.
    pub bytes: Vec<u8>,
}

impl Sink for NeverFails {
    ghost use Rattle.std.specs.Prelude.{Some};

    ghost taken = { λ s. Some s.bytes.items };

    ghost faults = { λ s. 0 };

    /// Beside what each put promises: the one fault is want of memory, and then nothing was taken.
    fn put(&mut self, _alloc: Global, piece: &[u8]) -> Result<(), WriteFault>
        ensures ok { OnOk result (Took (Some self.old.bytes.items) (Some self.new.bytes.items) piece.now) }
        ensures err { OnErr result (TookFront (Some self.old.bytes.items) (Some self.new.bytes.items) piece.now) }
        ensures empty { piece.now ≡ [] → IsOk result }
        ensures nothing { piece.now ≡ [] → self.new ≡ self.old }
        ensures failed { CountsFault 0 0 (IsErrOf result WriteFault.Failed) }
        ensures memory { IfErr result (λ fault. fault ≡ WriteFault.Memory) }
        ensures bytes { self.new.bytes.items ≡ (if is_ok result then self.old.bytes.items ++ piece.now else self.old.bytes.items) }
    {
        if piece.is_empty() {
            return Ok(());
        }
        self.bytes.extend_from_slice(piece)?;
        Ok(())
    }
}
