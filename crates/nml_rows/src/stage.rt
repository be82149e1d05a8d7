use crate::case::{Case, NO_CALL};
use crate::fault::Fault;
use crate::machine::Machine;
use crate::step::{Step, step_of};
use crate::stretch::Stretch;
use crate::words::word_of;
use indexmap::IndexMap;
use nk_base::{Memory, Text, dec};
use std::alloc::Global;
use std::mem;

/// A line of a case stands in front of the first.
const NO_CASE: Fault = Fault::Line("it stands in no case");

/// What the bytes that follow a line belong to.
#[derive(Drop)]
enum Place {
    /// Nothing takes bytes here.
    Nowhere,
    /// A file that each later case has.
    Shared(Text),
    /// A file of the open case, before its calls or after the last.
    Held(Text),
    /// What the call prints.
    Printed,
}

/// A transcript that is being played.
#[derive(Drop)]
pub struct Stage {
    alloc: Global,
    /// The files that each case has.
    shared: Machine,
    /// The case that is open.
    case: Option<Case>,
    /// The bytes that came since, and what they belong to.
    place: Place,
    bytes: Vec<u8>,
    /// A line for each case, and what wasn't as wanted.
    pub told: Text,
    /// How many cases passed, and how many failed.
    pub passed: u64,
    pub failed: u64,
}

impl Stage {
    /// Before the first line.
    pub fn new(alloc: Global) -> Stage {
        Stage {
            alloc,
            shared: IndexMap::new(alloc),
            case: None,
            place: Place::Nowhere,
            bytes: Vec::new(alloc),
            told: Text::new(alloc),
            passed: 0,
            failed: 0,
        }
    }

    /// Plays the lines in order. The first that isn't one of a transcript is told by its number, and ends it.
    pub fn play(&mut self, text: &str) -> Result<(), Memory> {
        let mut number = 0u64;
        for line in text.lines() {
            number = number.saturating_add(1);
            match self.take(line) {
                Ok(()) => {}
                Err(Fault::Memory) => return Err(Memory),
                Err(Fault::Line(why)) => return self.refuse(number, why),
            }
        }
        match self.end() {
            Ok(()) => Ok(()),
            Err(_) => Err(Memory),
        }
    }

    /// Tells of a line that isn't one of a transcript.
    fn refuse(&mut self, number: u64, why: &str) -> Result<(), Memory> {
        self.failed = self.failed.saturating_add(1);
        self.told.push_bytes(b"FAILED line ")?;
        self.told
            .push_bytes(dec(self.alloc, i128::from(number))?.as_bytes())?;
        self.told.push_bytes(b": ")?;
        self.told.push_bytes(why.as_bytes())?;
        self.told.push(b'\n')
    }

    /// Does what one line says.
    fn take(&mut self, line: &str) -> Result<(), Fault> {
        match step_of(line)? {
            Step::Remark => Ok(()),
            Step::Stretch(stretch) => self.append(stretch),
            step => {
                self.close()?;
                self.follow(step)
            }
        }
    }

    /// Does what a line says that isn't one of bytes.
    fn follow(&mut self, step: Step<'_>) -> Result<(), Fault> {
        match step {
            Step::Remark | Step::Stretch(_) => Ok(()),
            Step::File(name) => self.begin_file(name),
            Step::Case(name) => self.begin_case(name),
            Step::FailCall(number) => self.fail_call(number),
            Step::FailPut(number) => self.fail_put(number),
            Step::Call(line) => self.call(line),
            Step::Status(number) => self.want_status(number),
            Step::Calls(number) => self.want_calls(number),
            Step::After(name) => self.after(name),
            Step::Gone(name) => self.gone(name),
        }
    }

    /// Appends bytes to what they belong to.
    fn append(&mut self, stretch: Stretch<'_>) -> Result<(), Fault> {
        if let Place::Nowhere = self.place {
            return Err(Fault::Line("nothing takes bytes here"));
        }
        match &self.case {
            Some(case) => stretch.append_to(self.alloc, &mut self.bytes, &case.wanted),
            None => stretch.append_to(self.alloc, &mut self.bytes, &self.shared),
        }
    }

    /// Gives the bytes that came to what they belong to.
    fn close(&mut self) -> Result<(), Fault> {
        let bytes = mem::replace(&mut self.bytes, Vec::new(self.alloc));
        match mem::replace(&mut self.place, Place::Nowhere) {
            Place::Nowhere => {}
            Place::Shared(name) => {
                self.shared.insert(name, bytes)?;
            }
            Place::Held(name) => {
                if let Some(case) = &mut self.case {
                    case.wanted.insert(name, bytes)?;
                }
            }
            Place::Printed => {
                if let Some(case) = &mut self.case {
                    case.want_text(bytes);
                }
            }
        }
        Ok(())
    }

    /// A file of the open case, where that has no call yet, and else one that each later case has.
    fn begin_file(&mut self, name: &str) -> Result<(), Fault> {
        let name = word_of(self.alloc, name)?;
        let is_own = match &self.case {
            Some(case) => case.call.is_none(),
            None => false,
        };
        if is_own {
            self.place = Place::Held(name);
            return Ok(());
        }
        self.end_case()?;
        self.place = Place::Shared(name);
        Ok(())
    }

    /// A case over the files that each has.
    fn begin_case(&mut self, name: &str) -> Result<(), Fault> {
        self.end_case()?;
        self.case = Some(Case::new(self.alloc, name, &self.shared)?);
        Ok(())
    }

    /// Ends the last case.
    fn end(&mut self) -> Result<(), Fault> {
        self.close()?;
        self.end_case()
    }

    /// Ends the open case, where there is one, and tells how it went.
    fn end_case(&mut self) -> Result<(), Fault> {
        let Some(mut case) = self.case.take() else {
            return Ok(());
        };
        case.end(self.alloc)?;
        if case.told.as_bytes().is_empty() {
            self.passed = self.passed.saturating_add(1);
            self.told.push_bytes(b"ok ")?;
        } else {
            self.failed = self.failed.saturating_add(1);
            self.told.push_bytes(b"FAILED ")?;
        }
        self.told.push_bytes(case.name.as_bytes())?;
        self.told.push(b'\n')?;
        self.told.push_bytes(case.told.as_bytes())?;
        Ok(())
    }

    /// In the next call of the open case, this call of files is to fail.
    fn fail_call(&mut self, number: u64) -> Result<(), Fault> {
        match &mut self.case {
            Some(case) => case.fail_call(self.alloc, number),
            None => Err(NO_CASE),
        }
    }

    /// In the next call of the open case, this put is to fail.
    fn fail_put(&mut self, number: u64) -> Result<(), Fault> {
        match &mut self.case {
            Some(case) => case.fail_put(self.alloc, number),
            None => Err(NO_CASE),
        }
    }

    /// Calls the suite. What it is to print follows.
    fn call(&mut self, line: &str) -> Result<(), Fault> {
        self.place = Place::Printed;
        match &mut self.case {
            Some(case) => case.call(self.alloc, line),
            None => Err(NO_CASE),
        }
    }

    /// The call is to end with this status.
    fn want_status(&mut self, number: u64) -> Result<(), Fault> {
        match &mut self.case {
            Some(case) => case.want_status(number),
            None => Err(NO_CASE),
        }
    }

    /// The call is to take so many calls of files.
    fn want_calls(&mut self, number: u64) -> Result<(), Fault> {
        match &mut self.case {
            Some(case) => case.want_calls(number),
            None => Err(NO_CASE),
        }
    }

    /// After the call, this file is to have the bytes that follow.
    fn after(&mut self, name: &str) -> Result<(), Fault> {
        self.place = Place::Held(word_of(self.alloc, name)?);
        match &self.case {
            Some(case) if case.call.is_some() => Ok(()),
            _ => Err(NO_CALL),
        }
    }

    /// After the call, there is to be no such file.
    fn gone(&mut self, name: &str) -> Result<(), Fault> {
        let name = word_of(self.alloc, name)?;
        match &mut self.case {
            Some(case) => case.gone(&name),
            None => Err(NO_CASE),
        }
    }
}
