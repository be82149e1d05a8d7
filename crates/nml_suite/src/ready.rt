ghost use Rattle.nml_suite.specs.Reading.{store};
ghost use Rattle.nml_suite.specs.Refusing.{RunSettles};

use crate::describe::graph_of;
use crate::image::find_image;
use crate::input::numbered;
use crate::load::load;
use image_file::Image;
use input_port::input_type;
use isg_graph::Isg;
use nk_base::Text;
use nk_outside::Files;
use nml_reply::Refusal;
use std::alloc::Global;

/// What a run begins with: a description's graph, an image of it, and the numbers of its input.
#[derive(Drop)]
pub struct Ready {
    pub graph: Isg,
    pub image: Image,
    pub numbers: Vec<i64>,
}

/// Reads a description, an image and an input, and refuses each before the next is read.
pub fn prepare<'a, F: Files>(
    alloc: Global,
    files: &mut F,
    description: &'a Text,
    image: &'a Text,
    input: &'a Text,
) -> Result<Ready, Refusal<'a>>
    ensures { RunSettles (store (F.held files.old) (F.counts files.old)) (store (F.held files.new) (F.counts files.new)) description.now image.now input.now result }
{
    let bytes = load(alloc, files, description)?;
    let graph = graph_of(alloc, description, &bytes)?;
    let bits = load(alloc, files, image)?;
    let found = find_image(alloc, image, &graph, &bytes, &bits)?;
    let text = load(alloc, files, input)?;
    let numbers = numbered(alloc, input, &text, input_type(graph.checked().typed()))?;
    Ok(Ready {
        graph,
        image: found,
        numbers,
    })
}
