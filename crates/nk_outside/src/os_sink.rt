ghost use Rattle.std.specs.Prelude.{◌≡◌, ◌≢◌, [], None, Err, OnOk, OnErr, IsOk, IsErrOf};
ghost use Rattle.std.specs.Io.KnownBytes.{Appends};
ghost use Rattle.nk_outside.specs.Count.{CountsFault};
ghost use Rattle.nk_outside.specs.Handed.{AppendsFront};
ghost use Rattle.nk_outside.specs.Taken.{Took, TookFront};

use crate::{Sink, WriteFault};
use std::alloc::Global;
use std::io::Write;

/// The standard output, or any writer. It tells no content.
///
/// Proved is what the clauses of [`Sink`] say where nothing is told, and that a put hands the whole piece to the writer.
/// Trusted is that the writer passes on what it takes: no clause can say so.
#[derive(Drop)]
pub struct OsSink<W> {
    /// What takes the bytes.
    pub writer: W,
    /// Faults so far.
    pub faults: u64,
}

impl<W> OsSink<W> {
    /// The writer as a sink, before the first fault.
    pub fn new(writer: W) -> OsSink<W>
        ensures { result ≡ record { writer = writer; faults = 0 } }
    {
        OsSink { writer, faults: 0 }
    }
}

impl<W: Write> Sink for OsSink<W> {
    ghost use Rattle.std.specs.Prelude.{None};

    ghost taken = { λ s. None };

    ghost faults = { λ s. s.faults };

    /// Beside what each put promises: it hands the whole piece to the writer, in as many calls as that takes, and where
    /// the writer fails or takes nothing a front of it. The one fault is `Failed`.
    fn put(&mut self, _alloc: Global, piece: &[u8]) -> Result<(), WriteFault>
        ensures ok { OnOk result (Took None None piece.now) }
        ensures err { OnErr result (TookFront None None piece.now) }
        ensures empty { piece.now ≡ [] → IsOk result }
        ensures nothing { piece.now ≡ [] → self.new ≡ self.old }
        ensures failed { CountsFault self.old.faults self.new.faults (IsErrOf result WriteFault.Failed) }
        ensures kept { result ≢ Err WriteFault.Failed → self.new.faults ≡ self.old.faults }
        ensures handed { OnOk result (Appends (W.contents self.old.writer) (W.contents self.new.writer) piece.now) }
        ensures front { OnErr result (AppendsFront (W.contents self.old.writer) (W.contents self.new.writer) piece.now) }
        ensures fault { OnErr result (result ≡ Err WriteFault.Failed) }
    {
        if piece.is_empty() {
            return Ok(());
        }
        let mut rest = piece;
        while !rest.is_empty() {
            match self.writer.write(rest) {
                Ok(count) if count > 0 => rest = &rest[count..],
                _ => {
                    self.faults = self.faults.saturating_add(1);
                    return Err(WriteFault::Failed);
                }
            }
        }
        Ok(())
    }
}
