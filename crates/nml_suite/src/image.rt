ghost use Rattle.std.specs.Prelude.{◌≡◌, ◌≤◌, length, if◌then◌else◌};
ghost use Rattle.fault_texts.specs.ImageFaultText as text_of;
ghost use Rattle.nk_outside.specs.Held.{file_limit};
ghost use Rattle.nml_reply.specs.Refusals.{refused};
ghost use Rattle.nml_reply.specs.Reply.{image_fault, starved};
ghost use Rattle.nml_suite.specs.Refusing.{IsFound, IsLayoutOf};

use fault_texts::is_image_memory;
use image_file::{Image, ImageFault, Layout, read};
use image_layout::layout_of;
use isg_graph::Isg;
use nk_base::{Memory, Text};
use nml_reply::Refusal;
use sha2::{Digest, Sha256};
use std::alloc::Global;

/// The image that the bits of the named file are, of the description that these bytes are.
pub fn find_image<'a>(
    alloc: Global,
    name: &'a Text,
    graph: &Isg,
    bytes: &[u8],
    bits: &[u8],
) -> Result<Image, Refusal<'a>>
    ensures { IsFound bytes.now graph.now name.now bits.now result }
{
    graph.is_whole();
    let layout = layout(alloc, graph)?;
    match read(alloc, bits, &layout, &Sha256::digest(bytes)) {
        Ok(image) => Ok(image),
        Err(fault) => Err(refusal_of(name, fault)),
    }
}

/// By what the images of the graph's description are measured.
fn layout<'a>(alloc: Global, graph: &Isg) -> Result<Layout, Refusal<'a>>
    ensures { IsLayoutOf graph.now result }
{
    graph.is_whole();
    match layout_of(alloc, graph.checked(), graph.word_bits()) {
        Ok(layout) => Ok(layout),
        Err(Memory) => Err(Refusal::Memory),
    }
}

/// The refusal of the named image for a fault.
fn refusal_of<'a>(name: &'a Text, fault: ImageFault) -> Refusal<'a>
    ensures { refused result ≡ (if text_of.is_image_memory fault then starved else image_fault name.now fault) }
{
    if is_image_memory(&fault) {
        Refusal::Memory
    } else {
        Refusal::Image(name, fault)
    }
}
