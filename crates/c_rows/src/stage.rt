use crate::case::{Case, Fault};
use crate::judge::judge;
use nk_base::{Memory, Text, dec};
use std::alloc::Global;

/// Cases that are being played: the one that is open, a line for each before it, and how many of these passed and failed.
#[derive(Drop)]
pub struct Stage {
    alloc: Global,
    case: Option<Case>,
    pub told: Text,
    pub passed: u64,
    pub failed: u64,
}

/// Plays the lines in order. The first that is none of a case is told by its number, and ends the text.
pub fn play(alloc: Global, text: &str) -> Result<Stage, Memory> {
    let mut stage = Stage {
        alloc,
        case: None,
        told: Text::new(alloc),
        passed: 0,
        failed: 0,
    };
    let mut number = 0u64;
    for line in text.lines() {
        number = number.saturating_add(1);
        match stage.take(line) {
            Ok(()) => {}
            Err(Fault::Memory) => return Err(Memory),
            Err(Fault::Line(why)) => {
                let mut name = Text::from_bytes(alloc, b"line ")?;
                name.push_bytes(dec(alloc, i128::from(number))?.as_bytes())?;
                stage.tell(name.as_bytes(), why.as_bytes())?;
                return Ok(stage);
            }
        }
    }
    stage.end_case()?;
    Ok(stage)
}

impl Stage {
    /// Does what one line says.
    fn take(&mut self, line: &str) -> Result<(), Fault> {
        let (word, rest) = line.split_once(' ').unwrap_or((line, ""));
        match &mut self.case {
            Some(case) if case.is_open => case.program_line(line),
            _ if line.is_empty() || line.starts_with('#') => Ok(()),
            _ if word == "case" => {
                self.end_case()?;
                self.case = Some(Case::new(self.alloc, rest)?);
                Ok(())
            }
            Some(case) => case.line(self.alloc, word, rest),
            None => Err(Fault::Line("it stands in no case")),
        }
    }

    /// Ends the open case, where there is one, and tells how it went.
    fn end_case(&mut self) -> Result<(), Memory> {
        match self.case.take() {
            Some(case) => {
                let why = judge(self.alloc, &case)?;
                self.tell(case.name.as_bytes(), why.as_bytes())
            }
            None => Ok(()),
        }
    }

    /// Tells of a case, and why it failed, if it did.
    fn tell(&mut self, name: &[u8], why: &[u8]) -> Result<(), Memory> {
        if why.is_empty() {
            self.passed = self.passed.saturating_add(1);
            self.told.push_bytes(b"ok ")?;
            self.told.push_bytes(name)?;
        } else {
            self.failed = self.failed.saturating_add(1);
            self.told.push_bytes(b"FAILED ")?;
            self.told.push_bytes(name)?;
            self.told.push_bytes(b": ")?;
            self.told.push_bytes(why)?;
        }
        self.told.push(b'\n')
    }
}
