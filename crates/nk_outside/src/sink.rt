ghost use Rattle.std.specs.Prelude.{◌≡◌, ◌≢◌, ◌≤◌, ℕ, List, [], Err, OnOk, OnErr, IsOk, IsErrOf};
ghost use Rattle.std.specs.declared.option.Option.{Option};
ghost use Rattle.nk_outside.specs.Count.{CountsFault};
ghost use Rattle.nk_outside.specs.Taken.{Took, TookFront};

use crate::WriteFault;
use std::alloc::Global;

/// What takes text, piece by piece: the bytes taken so far, which may be told or not, and a count of faults.
pub trait Sink {
    /// The bytes taken so far, where they are told.
    ghost taken: { Self → Option (List ℕ) };

    /// Faults so far. The count never falls, and stays at 2^64-1.
    ghost faults: { Self → ℕ };

    /// Appends the whole piece. For an empty piece it answers Ok and changes nothing.
    ///
    /// After a fault some front of the piece was appended. The count of faults rises exactly where the answer is
    /// `Failed`, so that want of memory, which may come at any growth, is never told of a piece that failed.
    fn put(&mut self, alloc: Global, piece: &[u8]) -> Result<(), WriteFault>
        ensures ok { OnOk result (Took (taken self.old) (taken self.new) piece.now) }
        ensures err { OnErr result (TookFront (taken self.old) (taken self.new) piece.now) }
        ensures empty { piece.now ≡ [] → IsOk result }
        ensures nothing { piece.now ≡ [] → self.new ≡ self.old }
        ensures failed { CountsFault (faults self.old) (faults self.new) (IsErrOf result WriteFault.Failed) }
        ensures kept { result ≢ Err WriteFault.Failed → faults self.new ≡ faults self.old };
}
