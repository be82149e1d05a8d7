ghost use Rattle.std.specs.Prelude.{◌≡◌, ◌∷◌, []};
ghost use Rattle.image_file.specs.Measured.{measures};
ghost use Rattle.image_file.specs.Seen.{picture_of};
ghost use Rattle.image_file.specs.Valid.{IsValid};
ghost use Rattle.nml_suite.specs.Coming.{DisComesTo};
ghost use Rattle.nml_suite.specs.Reading.{store};
ghost use Rattle.nml_suite.specs.Refusing.{IsShown, Settles, shown};
ghost use Rattle.nml_tree.specs.Table.{table};

use crate::describe::graph_of;
use crate::image::find_image;
use crate::load::load;
use disasm_tool::disassemble;
use image_file::Image;
use isg_graph::Isg;
use nk_base::{Memory, Text};
use nk_outside::Files;
use nml_reply::Refusal;
use std::alloc::Global;

/// Reads a description and an image, and refuses the first before the second is read; answers the canonical text of the image.
pub fn disassembled<'a, F: Files>(
    alloc: Global,
    files: &mut F,
    description: &'a Text,
    image: &'a Text,
) -> Result<Text, Refusal<'a>>
    ensures { Settles (store (F.held files.old) (F.counts files.old)) (store (F.held files.new) (F.counts files.new)) (description.now ∷ image.now ∷ []) (DisComesTo description.now image.now) (shown result) }
{
    let bytes = load(alloc, files, description)?;
    let graph = graph_of(alloc, description, &bytes)?;
    let bits = load(alloc, files, image)?;
    let found = find_image(alloc, image, &graph, &bytes, &bits)?;
    canonical(alloc, &graph, &found)
}

/// The canonical text of the image.
fn canonical<'a>(alloc: Global, graph: &Isg, image: &Image) -> Result<Text, Refusal<'a>>
    requires valid { IsValid (measures (table graph.now.desc) graph.now.word_bits) (picture_of image.now) }
    ensures { IsShown graph.now (picture_of image.now) result }
{
    match disassemble(alloc, graph, image) {
        Ok(text) => Ok(text),
        Err(Memory) => Err(Refusal::Memory),
    }
}
