use nk_base::{Memory, Text, dec};
use std::alloc::Global;

/// No more bytes than this are shown of a text.
const SHOWN: usize = 400;

/// What of a case isn't as wanted, in one line.
#[derive(Drop)]
pub struct Told {
    pub alloc: Global,
    pub text: Text,
}

impl Told {
    /// Tells something.
    pub fn say(&mut self, what: &str) -> Result<(), Memory> {
        if !self.text.as_bytes().is_empty() {
            self.text.push_bytes(b"; ")?;
        }
        self.text.push_bytes(what.as_bytes())
    }

    /// Tells of a number that isn't as wanted.
    pub fn number(&mut self, what: &str, wanted: u64, found: u64) -> Result<(), Memory> {
        let wanted = dec(self.alloc, i128::from(wanted))?;
        let found = dec(self.alloc, i128::from(found))?;
        self.compare(what, wanted.as_bytes(), found.as_bytes())
    }

    /// Tells of a text that isn't as wanted.
    pub fn compare(&mut self, what: &str, wanted: &[u8], found: &[u8]) -> Result<(), Memory> {
        if wanted == found {
            return Ok(());
        }
        self.say(what)?;
        self.show(b": ", found)?;
        self.show(b", wanted: ", wanted)
    }

    /// Appends a mark and a text, with blanks for line feeds.
    fn show(&mut self, mark: &[u8], text: &[u8]) -> Result<(), Memory> {
        self.text.push_bytes(mark)?;
        for byte in text.iter().take(SHOWN) {
            self.text.push(if *byte == b'\n' { b' ' } else { *byte })?;
        }
        Ok(())
    }
}
