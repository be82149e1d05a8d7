ghost use Rattle.std.specs.Prelude.{◌≡◌, ◌≢◌, ℕ, Some, Err, IfOk, OnOk, OnErr, IsErrOf};
ghost use Rattle.std.specs.Global.{Vec};
ghost use Rattle.indexmap.specs.IndexMap.{insert_entry};
ghost use Rattle.nk_base.specs.Text.{text_eq};
ghost use Rattle.nk_outside.specs.Count.{counted, CountsFault};
ghost use Rattle.nk_outside.specs.Held.{Reads, Lacks, IsTooLong, SameElsewhere, Holds};
ghost use Rattle.nk_outside.specs.Memory.{names, counts_of, fails_next, read_answer, read_leaves, write_leaves, IsAnswer, FailsWhere};

use crate::{FILE_LIMIT, Files, ReadFault, WriteFault};
use indexmap::IndexMap;
use nk_base::Text;
use std::alloc::Global;

/// Files in memory. It numbers its calls from 1, and fails those that are listed.
///
/// A number that has come to 2^64-1 stays there.
#[derive(Drop)]
pub struct MemFiles {
    /// What each name has.
    pub files: IndexMap<Text, Vec<u8>>,
    /// The numbers of the calls that fail.
    pub fail: Vec<u64>,
    /// Calls so far.
    pub calls: u64,
    /// Reads so far that failed.
    pub read_faults: u64,
    /// Writes so far that failed.
    pub write_faults: u64,
    /// Reads so far of names with no file.
    pub absents: u64,
}

impl Files for MemFiles {
    ghost use Rattle.std.specs.Prelude.{Some};
    ghost use Rattle.nk_outside.specs.Memory.{names, counts_of};

    ghost held = { λ f. Some (names f) };

    ghost counts = { counts_of };

    /// Beside what each read promises: a listed call fails and no other does, and only the counts change, each where
    /// its cause is.
    fn read(&mut self, alloc: Global, name: &Text) -> Result<Vec<u8>, ReadFault>
        ensures held { Some (names self.new) ≡ Some (names self.old) }
        ensures bytes { IfOk result (λ bytes. Reads (Some (names self.old)) name.now bytes.items) }
        ensures lacks { IsErrOf result ReadFault.Absent → Lacks (Some (names self.old)) name.now }
        ensures too_long { IsErrOf result ReadFault.TooLong → IsTooLong (Some (names self.old)) name.now }
        ensures calls { (counts_of self.new).calls ≡ counted (counts_of self.old).calls }
        ensures failed { CountsFault (counts_of self.old).read_faults (counts_of self.new).read_faults (IsErrOf result ReadFault.Failed) }
        ensures absent { CountsFault (counts_of self.old).absents (counts_of self.new).absents (IsErrOf result ReadFault.Absent) }
        ensures kept { result ≢ Err ReadFault.Failed → (counts_of self.new).read_faults ≡ (counts_of self.old).read_faults }
        ensures found { result ≢ Err ReadFault.Absent → (counts_of self.new).absents ≡ (counts_of self.old).absents }
        ensures writes { (counts_of self.new).write_faults ≡ (counts_of self.old).write_faults }
        ensures answer { IsAnswer (read_answer (fails_next self.old) (names self.old name.now)) result }
        ensures leaves { self.new ≡ read_leaves (fails_next self.old) (names self.old name.now) self.old }
    {
        self.calls = self.calls.saturating_add(1);
        if self.fail.contains(&self.calls) {
            self.read_faults = self.read_faults.saturating_add(1);
            return Err(ReadFault::Failed);
        }
        match self.files.get(name) {
            None => {
                self.absents = self.absents.saturating_add(1);
                Err(ReadFault::Absent)
            }
            Some(bytes) => {
                if bytes.len() > FILE_LIMIT {
                    return Err(ReadFault::TooLong);
                }
                Ok(Vec::from_slice(alloc, bytes)?)
            }
        }
    }

    /// Beside what each write promises: a listed call fails and no other does, and after any fault the files are as
    /// before. A new name stands behind the others.
    fn write(&mut self, alloc: Global, name: &Text, bytes: &[u8]) -> Result<(), WriteFault>
        ensures holds { OnOk result (Holds (Some (names self.new)) name.now bytes.now) }
        ensures others { SameElsewhere name.now (Some (names self.old)) (Some (names self.new)) }
        ensures memory { IsErrOf result WriteFault.Memory → Some (names self.new) ≡ Some (names self.old) }
        ensures calls { (counts_of self.new).calls ≡ counted (counts_of self.old).calls }
        ensures failed { CountsFault (counts_of self.old).write_faults (counts_of self.new).write_faults (IsErrOf result WriteFault.Failed) }
        ensures kept { result ≢ Err WriteFault.Failed → (counts_of self.new).write_faults ≡ (counts_of self.old).write_faults }
        ensures reads { (counts_of self.new).read_faults ≡ (counts_of self.old).read_faults }
        ensures absents { (counts_of self.new).absents ≡ (counts_of self.old).absents }
        ensures listed { FailsWhere (fails_next self.old) result }
        ensures leaves { self.new ≡ record (write_leaves (fails_next self.old) self.old) { files = self.new.files } }
        ensures entries { OnOk result ((v : Vec ℕ) × (v.items ≡ bytes.now) × (self.new.files.entries ≡ insert_entry text_eq self.old.files.entries name.now v)) }
        ensures unchanged { OnErr result (self.new.files.entries ≡ self.old.files.entries) }
    {
        self.calls = self.calls.saturating_add(1);
        if self.fail.contains(&self.calls) {
            self.write_faults = self.write_faults.saturating_add(1);
            return Err(WriteFault::Failed);
        }
        let bytes = Vec::from_slice(alloc, bytes)?;
        self.files.insert(name.clone()?, bytes)?;
        Ok(())
    }
}
