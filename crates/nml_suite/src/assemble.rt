ghost use Rattle.std.specs.Prelude.{◌≡◌, ◌≤◌, ◌∷◌, [], ℕ, List, length, if◌then◌else◌};
ghost use Rattle.fault_texts.specs.AsmFaultText as text_of;
ghost use Rattle.image_file.specs.File.{HasFile};
ghost use Rattle.image_file.specs.Seen.{picture_of};
ghost use Rattle.isg_graph.specs.Graph.{IsGraph};
ghost use Rattle.nk_outside.specs.Held.{file_limit};
ghost use Rattle.nml_reply.specs.Refusals.{refused};
ghost use Rattle.nml_reply.specs.Reply.{starved, text_fault};
ghost use Rattle.nml_suite.specs.Coming.{AsmComesTo};
ghost use Rattle.nml_suite.specs.Reading.{store};
ghost use Rattle.nml_suite.specs.Refusing.{HasBytes, IsAssembledText, IsMadeOfText, IsStored, Settles, file_named, settled};

use crate::describe::graph_of;
use crate::load::load;
use asm_text::AsmFault;
use fault_texts::is_asm_memory;
use image_file::{Image, write};
use isg_graph::Isg;
use nk_base::{Memory, Text};
use nk_outside::{Files, WriteFault};
use nml_reply::Refusal;
use sha2::{Digest, Sha256};
use std::alloc::Global;

/// The image of a text, and its file.
#[derive(Drop)]
pub struct Assembled {
    pub image: Image,
    pub file: Vec<u8>,
}

/// Reads a description and a text, and assembles the text: the description is refused first. Nothing is written yet.
pub fn assemble<'a, F: Files>(
    alloc: Global,
    files: &mut F,
    description: &'a Text,
    source: &'a Text,
) -> Result<Assembled, Refusal<'a>>
    ensures { (image : List ℕ) → Settles (store (F.held files.old) (F.counts files.old)) (store (F.held files.new) (F.counts files.new)) (description.now ∷ source.now ∷ []) (AsmComesTo description.now source.now image) (settled image result) }
{
    let bytes = load(alloc, files, description)?;
    let graph = graph_of(alloc, description, &bytes)?;
    let text = load(alloc, files, source)?;
    image_and_file(alloc, source, &graph, &bytes, &text)
}

/// The image of the named file's text, and its file.
fn image_and_file<'a>(
    alloc: Global,
    name: &'a Text,
    graph: &Isg,
    bytes: &[u8],
    text: &[u8],
) -> Result<Assembled, Refusal<'a>>
    requires { length text.now ≤ file_limit }
    ensures { IsAssembledText bytes.now graph.now name.now text.now result }
{
    graph.is_whole();
    let image = image_of(alloc, name, graph, bytes, text)?;
    with_file(alloc, image)
}

/// The image of the named file's text.
fn image_of<'a>(
    alloc: Global,
    name: &'a Text,
    graph: &Isg,
    bytes: &[u8],
    text: &[u8],
) -> Result<Image, Refusal<'a>>
    requires { length text.now ≤ file_limit }
    ensures { IsMadeOfText bytes.now graph.now name.now text.now result }
{
    match asm_tool::assemble(alloc, graph, &Sha256::digest(bytes), text) {
        Ok(image) => Ok(image),
        Err(fault) => Err(refusal_of(name, fault)),
    }
}

/// The refusal of the named text for a fault.
fn refusal_of<'a>(name: &'a Text, fault: AsmFault) -> Refusal<'a>
    ensures { refused result ≡ (if text_of.is_asm_memory fault then starved else text_fault name.now fault) }
{
    if is_asm_memory(&fault) {
        Refusal::Memory
    } else {
        Refusal::Source(name, fault)
    }
}

/// The image with its file.
fn with_file<'a>(alloc: Global, image: Image) -> Result<Assembled, Refusal<'a>>
    requires { HasFile (picture_of image) }
    ensures { HasBytes image result }
{
    match write(alloc, &image) {
        Ok(file) => Ok(Assembled { image, file }),
        Err(Memory) => Err(Refusal::Memory),
    }
}

/// Writes the image's file under the name.
pub fn save<'a, F: Files>(
    alloc: Global,
    files: &mut F,
    name: &'a Text,
    made: &Assembled,
) -> Result<(), Refusal<'a>>
    ensures { IsStored (store (F.held files.old) (F.counts files.old)) (store (F.held files.new) (F.counts files.new)) (file_named name.now made.now.file) result }
{
    match files.write(alloc, name, &made.file) {
        Ok(()) => Ok(()),
        Err(WriteFault::Failed) => Err(Refusal::Unwritten(name)),
        Err(WriteFault::Memory) => Err(Refusal::Memory),
    }
}
