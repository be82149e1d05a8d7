//! How a fault of an image file is told: one line for any of them.

ghost use Rattle.std.specs.Prelude.{◌≡◌, ◌++◌, OnOk, flat_map};
ghost use Rattle.nk_base.specs.Hexadecimal.{hexadecimal};
ghost use Rattle.fault_texts.specs.ImageFaultText as spec;

use crate::push::push_number;
use image_file::ImageFault;
use nk_base::{Memory, Text, push_hexadecimal};
use std::alloc::Global;

/// Whether memory was wanted, which is no fault of a file. It takes no memory. The rule is this project's own.
pub fn is_image_memory(fault: &ImageFault) -> bool
    ensures { result ≡ spec.is_image_memory fault.now }
{
    match fault {
        ImageFault::Magic => false,
        ImageFault::Version { found: _ } => false,
        ImageFault::Short { at: _ } => false,
        ImageFault::Trailing { at: _ } => false,
        ImageFault::Digest {
            wanted: _,
            found: _,
        } => false,
        ImageFault::Value { at: _ } => false,
        ImageFault::Memory => true,
    }
}

/// Appends the number and the name of a fault, and its fields, each behind one blank: a place in bytes or a version in decimal, a digest as
/// 64 lower-case hexadecimal digits, the one that was wanted before the one that was found. Want of memory appends nothing.
///
/// The rule is this project's own. The one error is want of memory; what was appended by then isn't said.
pub fn push_image_fault(alloc: Global, line: &mut Text, fault: &ImageFault) -> Result<(), Memory>
    ensures { OnOk result (line.new ≡ line.old ++ spec.image_fault_text fault.now) }
{
    match fault {
        ImageFault::Magic => line.push_bytes(b"I1 Magic"),
        ImageFault::Version { found } => {
            push_number(alloc, line, b"I2 Version ", u64::from(*found))
        }
        ImageFault::Short { at } => push_number(alloc, line, b"I3 Short ", *at),
        ImageFault::Trailing { at } => push_number(alloc, line, b"I4 Trailing ", *at),
        ImageFault::Digest { wanted, found } => {
            push_digest(line, b"I5 Digest ", wanted)?;
            push_digest(line, b" ", found)
        }
        ImageFault::Value { at } => push_number(alloc, line, b"I6 Value ", *at),
        ImageFault::Memory => Ok(()),
    }
}

/// Appends a text and a digest in hexadecimal.
fn push_digest(line: &mut Text, before: &[u8], digest: &[u8; 32]) -> Result<(), Memory>
    ensures { OnOk result (line.new ≡ line.old ++ (before.now ++ spec.digest_text digest.now)) }
{
    line.push_bytes(before)?;
    push_hexadecimal_bytes(line, digest)
}

/// Appends two hexadecimal digits for each byte.
fn push_hexadecimal_bytes(line: &mut Text, bytes: &[u8]) -> Result<(), Memory>
    ensures { OnOk result (line.new ≡ line.old ++ flat_map (hexadecimal 2) bytes.now) }
{
    for byte in bytes {
        push_hexadecimal(line, 2, u128::from(*byte))?;
    }
    Ok(())
}
