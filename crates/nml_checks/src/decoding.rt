//! Words decoded by the lists, and by a scan of all shapes.

use crate::machines::{ACCUMULATOR, TWO_SLOTS};
use image_decode::decode;
use isg_build::build;
use isg_graph::Isg;
use nk_base::Text;
use nml_read::read;
use nml_shape::{Inst, Piece};
use nml_types::check;
use std::alloc::Global;
use std::test::Fail;

/// Each word of ten bits is decoded as a scan of all shapes finds it; some words are instructions, and some aren't.
#[test]
fn decode_is_the_scan(rt: HostRuntime) -> Result<(), Fail> {
    for (machine, instructions) in [(ACCUMULATOR, 261), (TWO_SLOTS, 453)] {
        let g = graph_of(rt.alloc(), machine)?;
        assert_eq!(rt; instructions_of(&g), Some(instructions));
    }
    Ok(())
}

/// The lists by mask and by first token of the machine with two slots.
#[test]
fn lists_of_two_slots(rt: HostRuntime) -> Result<(), Fail> {
    let g = graph_of(rt.alloc(), TWO_SLOTS)?;
    assert_eq!(rt; g.masks(), [0x300, 0x3fc, 0x3ff].as_slice());
    assert_eq!(rt; g.of_mask(0), [0, 2].as_slice());
    for (word, count, shapes) in [
        (b"r".as_slice(), 11, [0].as_slice()),
        (b"put".as_slice(), 3, [1].as_slice()),
        (b"put".as_slice(), 2, [].as_slice()),
    ] {
        let first = Piece::Word(Text::from_bytes(rt.alloc(), word)?);
        assert_eq!(rt; g.of_line(&first, count), shapes);
    }
    Ok(())
}

/// How many words of ten bits are instructions; `None` where `decode` and the scan differ about one.
fn instructions_of(g: &Isg) -> Option<u32> {
    let mut count = 0u32;
    for word in 0..1_024u32 {
        match (decode(g, u128::from(word)), scan(g, u128::from(word))) {
            (None, None) => {}
            (Some(i), Some(j)) if i.shape == j.shape && i.word == j.word => {
                count = count.wrapping_add(1);
            }
            _ => return None,
        }
    }
    Some(count)
}

/// The instruction that the word is, found by a look at each shape. A description has 4,096 shapes at most.
fn scan(g: &Isg, word: u128) -> Option<Inst> {
    for number in 0..4_096 {
        let shape = g.shapes().get(number as usize)?;
        let instruction = Inst {
            shape: number,
            word,
        };
        if word & shape.mask == shape.value && !g.conflict(instruction) {
            return Some(instruction);
        }
    }
    None
}

/// The graph of the description that the bytes are.
fn graph_of(alloc: Global, bytes: &[u8]) -> Result<Isg, Fail> {
    if bytes.len() > 4_194_304 {
        return Err(Fail::new("more bytes than `read` takes"));
    }
    let Ok(tree) = read(alloc, bytes) else {
        return Err(Fail::new("no description"));
    };
    match check(alloc, tree) {
        Ok(checked) => Ok(build(alloc, checked)?),
        Err(_) => Err(Fail::new("not accepted")),
    }
}
