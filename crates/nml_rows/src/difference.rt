use crate::machine::Machine;
use nk_base::{Memory, Text, dec, push_hexadecimal};
use std::alloc::Global;

/// No more bytes than this are shown of a text that isn't as wanted.
const SHOWN: usize = 2_000;

/// Tells of a text that isn't as wanted.
pub fn tell_text(told: &mut Text, what: &str, wanted: &[u8], found: &[u8]) -> Result<(), Memory> {
    if wanted == found {
        return Ok(());
    }
    told.push_bytes(b"  ")?;
    told.push_bytes(what.as_bytes())?;
    told.push_bytes(b" wanted:\n")?;
    show(told, wanted)?;
    told.push_bytes(b"  found:\n")?;
    show(told, found)
}

/// Tells of a number that isn't as wanted.
pub fn tell_number(
    alloc: Global,
    told: &mut Text,
    what: &str,
    wanted: u64,
    found: u64,
) -> Result<(), Memory> {
    if wanted == found {
        return Ok(());
    }
    told.push_bytes(b"  ")?;
    told.push_bytes(what.as_bytes())?;
    told.push_bytes(b" wanted: ")?;
    told.push_bytes(dec(alloc, i128::from(wanted))?.as_bytes())?;
    told.push_bytes(b", found: ")?;
    told.push_bytes(dec(alloc, i128::from(found))?.as_bytes())?;
    told.push(b'\n')
}

/// Tells of each file that isn't as wanted, isn't there, or is there unwanted.
pub fn tell_files(told: &mut Text, wanted: &Machine, found: &Machine) -> Result<(), Memory> {
    for (name, bytes) in wanted.iter() {
        match found.get(name) {
            Some(held) => tell_file(told, name, bytes, held)?,
            None => tell_name(told, name, b" isn't there\n")?,
        }
    }
    for (name, bytes) in found.iter() {
        if wanted.get(name).is_none() {
            tell_name(told, name, b" is there unwanted:\n")?;
            show(told, bytes)?;
        }
    }
    Ok(())
}

/// Tells of a file that isn't as wanted.
fn tell_file(told: &mut Text, name: &Text, wanted: &[u8], found: &[u8]) -> Result<(), Memory> {
    if wanted == found {
        return Ok(());
    }
    tell_name(told, name, b" wanted:\n")?;
    show(told, wanted)?;
    told.push_bytes(b"  found:\n")?;
    show(told, found)
}

/// A file's name, and what is the matter with it.
fn tell_name(told: &mut Text, name: &Text, what: &[u8]) -> Result<(), Memory> {
    told.push_bytes(b"  file ")?;
    told.push_bytes(name.as_bytes())?;
    told.push_bytes(what)
}

/// The bytes as lines, what isn't a character from 32 to 126 in hexadecimal, and `\` where no line feed ends them.
fn show(told: &mut Text, bytes: &[u8]) -> Result<(), Memory> {
    let mut is_ended = true;
    for byte in bytes.iter().take(SHOWN) {
        if is_ended {
            told.push_bytes(b"    | ")?;
        }
        is_ended = *byte == b'\n';
        show_byte(told, *byte)?;
    }
    if bytes.len() > SHOWN {
        told.push_bytes(b"..")?;
    }
    if !is_ended {
        told.push_bytes(b"\\\n")?;
    }
    Ok(())
}

/// One byte.
fn show_byte(told: &mut Text, byte: u8) -> Result<(), Memory> {
    if byte == b'\n' || (32..127).contains(&byte) {
        return told.push(byte);
    }
    told.push_bytes(b"\\x")?;
    push_hexadecimal(told, 2, u128::from(byte))
}
