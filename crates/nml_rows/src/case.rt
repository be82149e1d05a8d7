use crate::difference::{tell_files, tell_number, tell_text};
use crate::fault::Fault;
use crate::machine::{Machine, copy_of, files_of};
use crate::words::words_of;
use nk_base::{Memory, Text};
use nk_outside::{MemFiles, MemSink};
use nml_suite::suite;
use std::alloc::Global;
use std::mem;

/// What is wanted of a call stands in front of it.
pub const NO_CALL: Fault = Fault::Line("there is no call in front of it");

/// A case that is being played.
#[derive(Drop)]
pub struct Case {
    /// Its name.
    pub name: Text,
    /// The files as they are to be.
    pub wanted: Machine,
    /// The numbers of the calls of files and of the puts that fail in the next call.
    fail_calls: Vec<u64>,
    fail_puts: Vec<u64>,
    /// The last call, whose wants may still come.
    pub call: Option<Call>,
    /// What wasn't as wanted so far.
    pub told: Text,
}

/// A call that was made, and what is wanted of it.
#[derive(Drop)]
pub struct Call {
    /// The words.
    line: Text,
    /// The files after it.
    files: MemFiles,
    /// What took its text.
    sink: MemSink,
    /// The number of its status.
    status: u8,
    /// The text that is wanted.
    wanted_text: Vec<u8>,
    /// The status that is wanted.
    wanted_status: u64,
    /// How many calls of files are wanted, where that is told.
    wanted_calls: Option<u64>,
}

impl Case {
    /// A case over these files, before its first call.
    pub fn new(alloc: Global, name: &str, machine: &Machine) -> Result<Case, Memory> {
        Ok(Case {
            name: Text::from_bytes(alloc, name.as_bytes())?,
            wanted: copy_of(alloc, machine)?,
            fail_calls: Vec::new(alloc),
            fail_puts: Vec::new(alloc),
            call: None,
            told: Text::new(alloc),
        })
    }

    /// In the next call, this call of files is to fail.
    pub fn fail_call(&mut self, alloc: Global, number: u64) -> Result<(), Fault> {
        self.settle(alloc)?;
        self.fail_calls.push(number)?;
        Ok(())
    }

    /// In the next call, this put is to fail.
    pub fn fail_put(&mut self, alloc: Global, number: u64) -> Result<(), Fault> {
        self.settle(alloc)?;
        self.fail_puts.push(number)?;
        Ok(())
    }

    /// The call is to print this.
    pub fn want_text(&mut self, bytes: Vec<u8>) {
        if let Some(call) = &mut self.call {
            call.wanted_text = bytes;
        }
    }

    /// The call is to end with this status.
    pub fn want_status(&mut self, number: u64) -> Result<(), Fault> {
        match &mut self.call {
            Some(call) => {
                call.wanted_status = number;
                Ok(())
            }
            None => Err(NO_CALL),
        }
    }

    /// The call is to take so many calls of files.
    pub fn want_calls(&mut self, number: u64) -> Result<(), Fault> {
        match &mut self.call {
            Some(call) => {
                call.wanted_calls = Some(number);
                Ok(())
            }
            None => Err(NO_CALL),
        }
    }

    /// After the call, there is to be no such file.
    pub fn gone(&mut self, name: &Text) -> Result<(), Fault> {
        match self.wanted.shift_remove(name) {
            Some(_) if self.call.is_some() => Ok(()),
            _ => Err(Fault::Line("there is no such file, or no call in front of it")),
        }
    }

    /// Calls the suite with the words, over the files as they are wanted so far.
    pub fn call(&mut self, alloc: Global, line: &str) -> Result<(), Fault> {
        self.settle(alloc)?;
        let words = words_of(alloc, line)?;
        let mut files = files_of(alloc, &self.wanted)?;
        files.fail = mem::replace(&mut self.fail_calls, Vec::new(alloc));
        let mut sink = MemSink {
            bytes: Vec::new(alloc),
            fail: mem::replace(&mut self.fail_puts, Vec::new(alloc)),
            calls: 0,
            faults: 0,
        };
        let status = suite(alloc, &words, &mut files, &mut sink).number();
        self.call = Some(Call {
            line: Text::from_bytes(alloc, line.as_bytes())?,
            files,
            sink,
            status,
            wanted_text: Vec::new(alloc),
            wanted_status: 0,
            wanted_calls: None,
        });
        Ok(())
    }

    /// Ends the case. One without a call, or with nothing behind its last `fail`, isn't as wanted.
    pub fn end(&mut self, alloc: Global) -> Result<(), Memory> {
        if self.call.is_none() {
            self.told.push_bytes(b"  there is no call at its end\n")?;
        }
        self.settle(alloc)
    }

    /// Compares the last call with what is wanted of it.
    fn settle(&mut self, alloc: Global) -> Result<(), Memory> {
        if let Some(call) = self.call.take() {
            let mut told = Text::new(alloc);
            tell_number(
                alloc,
                &mut told,
                "status",
                call.wanted_status,
                u64::from(call.status),
            )?;
            if let Some(calls) = call.wanted_calls {
                tell_number(alloc, &mut told, "calls of files", calls, call.files.calls)?;
            }
            tell_text(&mut told, "printed", &call.wanted_text, &call.sink.bytes)?;
            tell_files(&mut told, &self.wanted, &call.files.files)?;
            if !told.as_bytes().is_empty() {
                self.told.push_bytes(b"  $ ")?;
                self.told.push_bytes(call.line.as_bytes())?;
                self.told.push(b'\n')?;
                self.told.push_bytes(told.as_bytes())?;
            }
        }
        Ok(())
    }
}
