ghost use Rattle.std.specs.Prelude.{◌≡◌, ◌^◌, ◌<◌, ◌≤◌, ◌+◌, ◌*◌, [], length, map, slice_get, None, MatchResult};
ghost use Rattle.image_file.specs.File.{word_bytes};
ghost use Rattle.image_file.specs.Valid.{IsImageOf};
ghost use Rattle.image_file.specs.Seen.{init_of, measures_of, picture_of};
ghost use Rattle.image_file.specs.Refused.{IsRefused, IsWhole, cell_places, digest_in, field_places, number_behind, word_places};
ghost use Rattle.image_file.specs.Refused as spec;
ghost use Rattle.image_file.specs.Parts.{IsMisshapen, IsValueFault, inits_from, option_init, words_from};

use crate::fields::{is_cell, is_cell_behind, is_raw, is_storage, is_storage_behind};
use crate::{DataCell, Image, ImageFault, Layout};
use std::alloc::Global;

/// The number that the bytes write, the highest first.
fn number_of(bytes: &[u8]) -> u64
    requires { length bytes.now ≤ 8 }
    ensures exact { result ≡ number_behind 0 bytes.now }
    ensures below { result < 256 ^ length bytes.now }
{
    let mut n: u64 = 0;
    for byte in bytes {
        n = n * 256 + u64::from(*byte);
    }
    n
}

/// The number of so many bytes from this place on.
fn number_at(bytes: &[u8], at: usize, size: usize) -> u64
    requires size { size ≤ 8 }
    requires within { at + size ≤ length bytes.now }
    ensures exact { result ≡ spec.number_at at size bytes.now }
    ensures below { result < 256 ^ size }
{
    number_of(&bytes[at..at + size])
}

/// Where the number of data cells stands, by the width and the number of words in the bytes.
fn cell_count_at(bytes: &[u8]) -> u64
    requires { 42 ≤ length bytes.now }
    ensures exact { result ≡ spec.cell_count_at bytes.now }
    ensures below { result < 2 ^ 40 }
{
    let size = (number_at(bytes, 5, 1) + 7) / 8;
    42 + number_at(bytes, 38, 4) * size
}

/// How many bytes the file calls for by its own numbers.
fn called_for(bytes: &[u8]) -> u64
    ensures { result ≡ spec.called_for bytes.now }
{
    if bytes.len() < 42 {
        return 42;
    }
    let at = cell_count_at(bytes);
    if (bytes.len() as u64) < at + 4 {
        return at + 4;
    }
    at + 4 + number_at(bytes, at as usize, 4) * 14
}

/// Whether the bytes begin as an image's file and are as many as they call for; else the fault.
fn check_whole(bytes: &[u8]) -> Result<(), ImageFault>
    ensures { MatchResult result (λ _. IsWhole bytes.now) (λ f. IsMisshapen bytes.now f) }
{
    if !bytes.starts_with(b"NMLI") {
        return Err(ImageFault::Magic);
    }
    if bytes.len() > 4 && bytes[4] != 1 {
        return Err(ImageFault::Version { found: bytes[4] });
    }
    let wanted = called_for(bytes);
    let found = bytes.len() as u64;
    if found < wanted {
        return Err(ImageFault::Short { at: found });
    }
    if wanted < found {
        return Err(ImageFault::Trailing { at: wanted });
    }
    Ok(())
}

/// The digest in the bytes.
fn digest_of(bytes: &[u8]) -> [u8; 32]
    requires { 38 ≤ length bytes.now }
    ensures { result ≡ digest_in bytes.now }
{
    let mut found = [0u8; 32];
    found.copy_from_slice(&bytes[6..38]);
    found
}

/// So many words of this width; where one of them is too wide, the place of the first such.
fn words_of(alloc: Global, bytes: &[u8], width: u32, count: u64) -> Result<Vec<u128>, ImageFault>
    requires narrow { width ≤ 64 }
    requires within { 42 + count * word_bytes width ≤ length bytes.now }
    ensures { MatchResult result (λ v. (word_places bytes.now width count 42 ≡ []) × (v.items ≡ words_from bytes.now (word_bytes width) count 42)) (λ f. IsValueFault (word_places bytes.now width count 42) f) }
{
    let size = ((width + 7) / 8) as usize;
    let mut words = Vec::new(alloc);
    let mut at: usize = 42;
    for turn in 0..count {
        let word = u128::from(number_at(bytes, at, size));
        if word >= 1u128 << width {
            return Err(ImageFault::Value { at: at as u64 });
        }
        words.push(word)?;
        at += size;
    }
    Ok(words)
}

/// The data cell at this place.
fn cell_at(bytes: &[u8], at: usize) -> DataCell
    requires { at + 14 ≤ length bytes.now }
    ensures { init_of result ≡ spec.init_at bytes.now at }
{
    DataCell {
        storage: number_at(bytes, at, 2) as u16,
        cell: number_at(bytes, at + 2, 4) as u32,
        value: number_at(bytes, at + 6, 8),
    }
}

/// The first field of a data cell that is wrong, behind this one.
fn wrong_field(layout: &Layout, before: Option<DataCell>, cell: DataCell, at: u64) -> Option<u64>
    requires { at + 6 < 2 ^ 64 }
    ensures { result ≡ slice_get (field_places (measures_of layout.now) (option_init before) (init_of cell) at) 0 }
{
    if !is_storage(layout, cell.storage) || !is_storage_behind(before, cell) {
        return Some(at);
    }
    if !is_cell(layout, cell) || !is_cell_behind(before, cell) {
        return Some(at + 2);
    }
    if !is_raw(layout, cell) {
        return Some(at + 6);
    }
    None
}

/// So many data cells from this place on; where a field of one is wrong, the place of the first such.
fn inits_of(
    alloc: Global,
    bytes: &[u8],
    layout: &Layout,
    from: usize,
    count: u64,
) -> Result<Vec<DataCell>, ImageFault>
    requires { from + count * 14 ≤ length bytes.now }
    ensures { MatchResult result (λ v. (cell_places (measures_of layout.now) bytes.now None count from ≡ []) × (map init_of v.items ≡ inits_from bytes.now count from)) (λ f. IsValueFault (cell_places (measures_of layout.now) bytes.now None count from) f) }
{
    let mut inits = Vec::new(alloc);
    let mut before = None;
    let mut at = from;
    for turn in 0..count {
        let cell = cell_at(bytes, at);
        if let Some(wrong) = wrong_field(layout, before, cell, at as u64) {
            return Err(ImageFault::Value { at: wrong });
        }
        inits.push(cell)?;
        before = Some(cell);
        at += 14;
    }
    Ok(inits)
}

/// The image that the bytes are, for the description of this layout and this digest.
///
/// The bytes are its file, and it is valid for the description and carries the digest: W is the description's word width, there are at
/// most 2^p words for a PC of p bits, each below 2^W, the data cells are cells of storages other than PC, in rising order of storage,
/// then cell, and each value is above 0 and below 2^n, n being the bits of the storage's type. Of several faults the first in the order
/// of [`ImageFault`] is answered, each exactly by its condition. The layout has at most 64 bits a word and 16 bits of PC. The form is
/// this project's own. It takes memory for the words and data cells that stand in the bytes alone.
pub fn read(
    alloc: Global,
    bytes: &[u8],
    layout: &Layout,
    digest: &[u8; 32],
) -> Result<Image, ImageFault>
    requires narrow { layout.now.width ≤ 64 }
    requires pc { layout.now.pc_bits ≤ 16 }
    ensures { MatchResult result (λ i. IsImageOf (measures_of layout.now) digest.now bytes.now (picture_of i)) (λ f. IsRefused (measures_of layout.now) digest.now bytes.now f) }
{
    check_whole(bytes)?;
    let found = digest_of(bytes);
    if found != *digest {
        return Err(ImageFault::Digest {
            wanted: *digest,
            found,
        });
    }
    if number_at(bytes, 5, 1) != u64::from(layout.width) {
        return Err(ImageFault::Value { at: 5 });
    }
    let count = number_at(bytes, 38, 4);
    if count > 1u64 << layout.pc_bits {
        return Err(ImageFault::Value { at: 38 });
    }
    let words = words_of(alloc, bytes, layout.width, count)?;
    let at = cell_count_at(bytes) as usize;
    let inits = inits_of(alloc, bytes, layout, at + 4, number_at(bytes, at, 4))?;
    Ok(Image {
        digest: found,
        width: layout.width as u8,
        words,
        inits,
    })
}
