ghost use Rattle.std.specs.Prelude.{◌≡◌, ◌++◌, IfOk, OnOk, map, flat_map};
ghost use Rattle.image_file.specs.File.{Picture, HasFile, big_endian, init_bytes, file};
ghost use Rattle.image_file.specs.Seen.{picture_of, init_of};

use crate::{DataCell, Image};
use nk_base::Memory;
use std::alloc::Global;

/// Writes so many bytes of the number at the end, the highest first.
fn push_big_endian(bytes: &mut Vec<u8>, count: u32, n: u128) -> Result<(), Memory>
    ensures { OnOk result (bytes.new.items ≡ bytes.old.items ++ big_endian count n) }
{
    if count == 0 {
        return Ok(());
    }
    push_big_endian(bytes, count - 1, n / 256)?;
    bytes.push((n % 256) as u8)?;
    Ok(())
}

/// Writes the words at the end, each as so many bytes.
fn push_words(bytes: &mut Vec<u8>, count: u32, words: &[u128]) -> Result<(), Memory>
    ensures { OnOk result (bytes.new.items ≡ bytes.old.items ++ flat_map (big_endian count) words.now) }
{
    for word in words {
        push_big_endian(bytes, count, *word)?;
    }
    Ok(())
}

/// Writes a data cell at the end.
fn push_init(bytes: &mut Vec<u8>, cell: &DataCell) -> Result<(), Memory>
    ensures { OnOk result (bytes.new.items ≡ bytes.old.items ++ init_bytes (init_of cell.now)) }
{
    push_big_endian(bytes, 2, u128::from(cell.storage))?;
    push_big_endian(bytes, 4, u128::from(cell.cell))?;
    push_big_endian(bytes, 8, u128::from(cell.value))
}

/// Writes the data cells at the end.
fn push_inits(bytes: &mut Vec<u8>, inits: &[DataCell]) -> Result<(), Memory>
    ensures { OnOk result (bytes.new.items ≡ bytes.old.items ++ flat_map init_bytes (map init_of inits.now)) }
{
    for cell in inits {
        push_init(bytes, cell)?;
    }
    Ok(())
}

/// The bytes of the image's file, version 1: the letters `NMLI`, the version, the width, the digest, how many words there are and the
/// words, how many data cells there are and the cells; each number with its highest byte first.
///
/// The image has a width from 8 to 64, words below 2^width, at most 65,536, and fewer than 2^32 data cells. The form is this project's own.
/// The one error is want of memory.
pub fn write(alloc: Global, i: &Image) -> Result<Vec<u8>, Memory>
    requires { HasFile (picture_of i.now) }
    ensures { IfOk result (λ v. v.items ≡ file (picture_of i.now)) }
{
    let words = i.words.as_slice();
    let inits = i.inits.as_slice();
    let mut bytes = Vec::from_slice(alloc, b"NMLI")?;
    bytes.push(1)?;
    bytes.push(i.width)?;
    bytes.extend_from_slice(&i.digest)?;
    push_big_endian(&mut bytes, 4, words.len() as u128)?;
    push_words(&mut bytes, (u32::from(i.width) + 7) / 8, words)?;
    push_big_endian(&mut bytes, 4, inits.len() as u128)?;
    push_inits(&mut bytes, inits)?;
    Ok(bytes)
}

/// A law: no two images share a file.
pub fn one_file()
    ensures { (i j : Picture) → HasFile i → HasFile j → file i ≡ file j → i ≡ j }
{}
