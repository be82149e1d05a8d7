ghost use Rattle.std.specs.Prelude.{◌≡◌, ◌≢◌, ◌≤◌, ◌<◌, ℕ, List, length, None, Err, IfOk, OnOk, OnErr, IsErrOf, IsTrue};
ghost use Rattle.std.specs.IoError.{error_kind};
ghost use Rattle.std.specs.Io.KnownBytes.{Appends, Consumes, IsAtEnd};
ghost use Rattle.nk_outside.specs.Count.{counted, CountsFault};
ghost use Rattle.nk_outside.specs.Held.{file_limit, Reads, Holds, SameElsewhere};

use crate::{FILE_LIMIT, Files, ReadFault, WriteFault};
use nk_base::Text;
use std::alloc::Global;
use std::fs::File;
use std::io::{ErrorKind, Read, Write};
use std::{io, rt, str};

/// How many bytes one read asks for.
const BLOCK: usize = 65_536;

/// The files of the system. They tell no content.
///
/// Proved is what the clauses of [`Files`] say where nothing is told: how the counts go, and that what is read has at
/// most [`FILE_LIMIT`] bytes; and, where the system's files tell their bytes, that a read takes all that one of them has
/// left, and a write hands one each byte. That it is the file of the name, and that the system gives what it holds and
/// keeps what it takes, no clause says: it is tested. A name that isn't UTF-8 fails, and is never absent.
#[derive(Drop)]
pub struct OsFiles<R> {
    /// What opens files.
    pub system: R,
    /// Calls so far.
    pub calls: u64,
    /// Reads so far that failed.
    pub read_faults: u64,
    /// Writes so far that failed.
    pub write_faults: u64,
    /// Reads so far of names with no file.
    pub absents: u64,
}

impl<R> OsFiles<R> {
    /// The files of the system, before the first call.
    pub fn new(system: R) -> OsFiles<R>
        ensures { result ≡ record { system = system; calls = 0; read_faults = 0; write_faults = 0; absents = 0 } }
    {
        OsFiles {
            system,
            calls: 0,
            read_faults: 0,
            write_faults: 0,
            absents: 0,
        }
    }
}

/// Opens a file; a name that isn't UTF-8 fails.
fn open<R: rt::Files>(system: &R, name: &Text) -> Result<R::File, ReadFault> {
    let Ok(path) = str::from_utf8(name.as_bytes()) else {
        return Err(ReadFault::Failed);
    };
    match File::open(system, path) {
        Ok(file) => Ok(file),
        Err(fault) => Err(fault_of(&fault)),
    }
}

/// What a fault of the system means for a read.
fn fault_of(fault: &io::Error) -> ReadFault
    ensures absent { error_kind fault.now ≡ ErrorKind.NotFound → result ≡ ReadFault.Absent }
    ensures memory { error_kind fault.now ≡ ErrorKind.OutOfMemory → result ≡ ReadFault.Memory }
    ensures failed { error_kind fault.now ≢ ErrorKind.NotFound → error_kind fault.now ≢ ErrorKind.OutOfMemory → result ≡ ReadFault.Failed }
{
    match fault.kind() {
        ErrorKind::NotFound => ReadFault::Absent,
        ErrorKind::OutOfMemory => ReadFault::Memory,
        _ => ReadFault::Failed,
    }
}

/// All that a file has left, where that is within the limit.
fn read_all<F: Read>(alloc: Global, file: &mut F) -> Result<Vec<u8>, ReadFault>
    ensures within { IfOk result (λ bytes. length bytes.items ≤ file_limit) }
    ensures bytes { IfOk result (λ bytes. Consumes (F.remaining file.old) (F.remaining file.new) bytes.items) }
    ensures end { OnOk result (IsAtEnd (F.remaining file.new)) }
    ensures too_long { IsErrOf result ReadFault.TooLong → (front : List ℕ) × Consumes (F.remaining file.old) (F.remaining file.new) front × (file_limit < length front) }
{
    let mut bytes = Vec::new(alloc);
    let mut block = [0u8; BLOCK];
    for _ in 0..u64::MAX {
        let Ok(count) = file.read(&mut block) else {
            return Err(ReadFault::Failed);
        };
        if count == 0 {
            return Ok(bytes);
        }
        if count > FILE_LIMIT - bytes.len() {
            return Err(ReadFault::TooLong);
        }
        bytes.extend_from_slice(&block[..count])?;
    }
    Err(ReadFault::Failed)
}

/// Writes all of the bytes; whether the file took them.
fn write_all<W: Write>(file: &mut W, bytes: &[u8]) -> bool
    ensures { IsTrue result → Appends (W.contents file.old) (W.contents file.new) bytes.now }
{
    let mut rest = bytes;
    while !rest.is_empty() {
        match file.write(rest) {
            Ok(0) => return false,
            Ok(count) => rest = &rest[count..],
            Err(_) => return false,
        }
    }
    true
}

impl<R: rt::Files> Files for OsFiles<R> {
    ghost use Rattle.std.specs.Prelude.{None};

    ghost held = { λ f. None };

    ghost counts = { λ f. record { calls = f.calls; read_faults = f.read_faults; write_faults = f.write_faults; absents = f.absents } };

    /// Beside what each read promises: the bytes are all that some file of the system had left, where that is told. That
    /// it is the file of the name, no clause says.
    fn read(&mut self, alloc: Global, name: &Text) -> Result<Vec<u8>, ReadFault>
        ensures bytes { IfOk result (λ bytes. Reads None name.now bytes.items) }
        ensures calls { self.new.calls ≡ counted self.old.calls }
        ensures failed { CountsFault self.old.read_faults self.new.read_faults (IsErrOf result ReadFault.Failed) }
        ensures absent { CountsFault self.old.absents self.new.absents (IsErrOf result ReadFault.Absent) }
        ensures kept { result ≢ Err ReadFault.Failed → self.new.read_faults ≡ self.old.read_faults }
        ensures found { result ≢ Err ReadFault.Absent → self.new.absents ≡ self.old.absents }
        ensures writes { self.new.write_faults ≡ self.old.write_faults }
        ensures whole { IfOk result (λ bytes. (file : R.File) × (after : R.File) × Consumes (R.File.remaining file) (R.File.remaining after) bytes.items × IsAtEnd (R.File.remaining after)) }
    {
        self.calls = self.calls.saturating_add(1);
        let answer = match open(&self.system, name) {
            Ok(mut file) => read_all(alloc, &mut file),
            Err(fault) => Err(fault),
        };
        match answer {
            Err(ReadFault::Failed) => self.read_faults = self.read_faults.saturating_add(1),
            Err(ReadFault::Absent) => self.absents = self.absents.saturating_add(1),
            _ => {}
        }
        answer
    }

    /// Beside what each write promises: where it succeeds some file of the system took each byte in order, where that is
    /// told, and the one fault is `Failed`, also where the system is short of memory. That it is the file of the name, no
    /// clause says.
    fn write(&mut self, _alloc: Global, name: &Text, bytes: &[u8]) -> Result<(), WriteFault>
        ensures holds { OnOk result (Holds None name.now bytes.now) }
        ensures others { SameElsewhere name.now None None }
        ensures calls { self.new.calls ≡ counted self.old.calls }
        ensures failed { CountsFault self.old.write_faults self.new.write_faults (IsErrOf result WriteFault.Failed) }
        ensures kept { result ≢ Err WriteFault.Failed → self.new.write_faults ≡ self.old.write_faults }
        ensures reads { self.new.read_faults ≡ self.old.read_faults }
        ensures absents { self.new.absents ≡ self.old.absents }
        ensures fault { OnErr result (result ≡ Err WriteFault.Failed) }
        ensures whole { OnOk result ((file : R.File) × (after : R.File) × Appends (R.File.contents file) (R.File.contents after) bytes.now) }
    {
        self.calls = self.calls.saturating_add(1);
        if let Ok(path) = str::from_utf8(name.as_bytes())
            && let Ok(mut file) = File::create(&self.system, path)
            && write_all(&mut file, bytes)
        {
            return Ok(());
        }
        self.write_faults = self.write_faults.saturating_add(1);
        Err(WriteFault::Failed)
    }
}
