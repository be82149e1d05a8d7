ghost use Rattle.std.specs.Prelude.{◌≡◌, ◌≢◌, ◌++◌, [], Some, Err, is_ok, OnOk, OnErr, IsOk, IsErrOf, if◌then◌else◌};
ghost use Rattle.nk_outside.specs.Count.{CountsFault};
ghost use Rattle.nk_outside.specs.Memory.{put_fails, put_leaves, FailsWhere};
ghost use Rattle.nk_outside.specs.Taken.{Took, TookFront};

use crate::{Sink, WriteFault};
use std::alloc::Global;

/// A sink in memory. It numbers its calls from 1, and fails those that are listed, taking nothing.
///
/// A put of no bytes is no call. A number that has come to 2^64-1 stays there. A put that failed took nothing, so that
/// putting the piece again goes on where it stood.
#[derive(Drop)]
pub struct MemSink {
    /// What was taken so far.
    pub bytes: Vec<u8>,
    /// The numbers of the calls that fail.
    pub fail: Vec<u64>,
    /// Calls so far.
    pub calls: u64,
    /// Calls so far that failed.
    pub faults: u64,
}

impl Sink for MemSink {
    ghost use Rattle.std.specs.Prelude.{Some};

    ghost taken = { λ s. Some s.bytes.items };

    ghost faults = { λ s. s.faults };

    /// Beside what each put promises: a listed call fails and no other does, and after any fault nothing was taken.
    fn put(&mut self, _alloc: Global, piece: &[u8]) -> Result<(), WriteFault>
        ensures ok { OnOk result (Took (Some self.old.bytes.items) (Some self.new.bytes.items) piece.now) }
        ensures err { OnErr result (TookFront (Some self.old.bytes.items) (Some self.new.bytes.items) piece.now) }
        ensures empty { piece.now ≡ [] → IsOk result }
        ensures nothing { piece.now ≡ [] → self.new ≡ self.old }
        ensures failed { CountsFault self.old.faults self.new.faults (IsErrOf result WriteFault.Failed) }
        ensures kept { result ≢ Err WriteFault.Failed → self.new.faults ≡ self.old.faults }
        ensures listed { piece.now ≢ [] → FailsWhere (put_fails self.old) result }
        ensures leaves { piece.now ≢ [] → self.new ≡ record (put_leaves (put_fails self.old) self.old) { bytes = self.new.bytes } }
        ensures bytes { self.new.bytes.items ≡ (if is_ok result then self.old.bytes.items ++ piece.now else self.old.bytes.items) }
    {
        if piece.is_empty() {
            return Ok(());
        }
        self.calls = self.calls.saturating_add(1);
        if self.fail.contains(&self.calls) {
            self.faults = self.faults.saturating_add(1);
            return Err(WriteFault::Failed);
        }
        self.bytes.extend_from_slice(piece)?;
        Ok(())
    }
}
