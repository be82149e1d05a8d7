use crate::fault::Fault;
use crate::machine::Machine;
use crate::words::word_of;
use std::alloc::Global;

/// Bytes as a line of a transcript writes them.
#[derive(Clone, Copy)]
pub struct Stretch<'a> {
    /// How many times they stand.
    times: u64,
    /// How they are written.
    kind: Kind,
    /// What is written.
    text: &'a str,
}

/// How bytes are written.
#[derive(Clone, Copy)]
enum Kind {
    /// A text and a line feed behind it.
    Line,
    /// A text alone.
    Text,
    /// Two hexadecimal digits a byte.
    Hexadecimal,
    /// The name of a file that holds them.
    Copy,
}

/// `| TEXT`, `. TEXT`, `hex DIGITS` or `copy NAME`, or a number and one of these; the first word is given apart.
pub fn stretch_of<'a>(word: &'a str, rest: &'a str) -> Result<Stretch<'a>, Fault> {
    match word.parse::<u64>() {
        Ok(times) => {
            let (mark, text) = rest.split_once(' ').unwrap_or((rest, ""));
            let kind = kind_of(mark)?;
            Ok(Stretch { times, kind, text })
        }
        Err(_) => {
            let kind = kind_of(word)?;
            Ok(Stretch {
                times: 1,
                kind,
                text: rest,
            })
        }
    }
}

/// How bytes are written behind this word.
fn kind_of(word: &str) -> Result<Kind, Fault> {
    match word {
        "|" => Ok(Kind::Line),
        "." => Ok(Kind::Text),
        "hex" => Ok(Kind::Hexadecimal),
        "copy" => Ok(Kind::Copy),
        _ => Err(Fault::Line("no line of a transcript has this word here")),
    }
}

impl Stretch<'_> {
    /// Appends the bytes. Files are copied from the machine.
    pub fn append_to(
        self,
        alloc: Global,
        bytes: &mut Vec<u8>,
        machine: &Machine,
    ) -> Result<(), Fault> {
        for _ in 0..self.times {
            self.append_once(alloc, bytes, machine)?;
        }
        Ok(())
    }

    /// Appends the bytes as they stand once.
    fn append_once(
        self,
        alloc: Global,
        bytes: &mut Vec<u8>,
        machine: &Machine,
    ) -> Result<(), Fault> {
        match self.kind {
            Kind::Line => {
                bytes.extend_from_slice(self.text.as_bytes())?;
                bytes.push(b'\n')?;
                Ok(())
            }
            Kind::Text => {
                bytes.extend_from_slice(self.text.as_bytes())?;
                Ok(())
            }
            Kind::Hexadecimal => push_hexadecimal(bytes, self.text),
            Kind::Copy => push_file(alloc, bytes, machine, self.text),
        }
    }
}

/// Appends what the file of this name holds.
fn push_file(
    alloc: Global,
    bytes: &mut Vec<u8>,
    machine: &Machine,
    name: &str,
) -> Result<(), Fault> {
    match machine.get(&word_of(alloc, name)?) {
        Some(held) => {
            bytes.extend_from_slice(held)?;
            Ok(())
        }
        None => Err(Fault::Line("there is no file of this name to copy")),
    }
}

/// Appends a byte for each two digits. Blanks may stand between bytes.
fn push_hexadecimal(bytes: &mut Vec<u8>, digits: &str) -> Result<(), Fault> {
    let mut high = None;
    for digit in digits.as_bytes() {
        match (high, value_of(*digit)) {
            (None, Some(value)) => high = Some(value),
            (Some(before), Some(value)) => {
                bytes.push((before << 4) | value)?;
                high = None;
            }
            (None, None) if *digit == b' ' => {}
            _ => return Err(Fault::Line("here two hexadecimal digits a byte are wanted")),
        }
    }
    match high {
        None => Ok(()),
        Some(_) => Err(Fault::Line("the last byte has one digit")),
    }
}

/// What a hexadecimal digit is worth.
fn value_of(digit: u8) -> Option<u8> {
    match digit {
        b'0'..=b'9' => Some(digit - b'0'),
        b'a'..=b'f' => Some(digit - b'a' + 10),
        b'A'..=b'F' => Some(digit - b'A' + 10),
        _ => None,
    }
}
