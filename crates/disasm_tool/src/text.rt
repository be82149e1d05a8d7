//! The canonical text of an image.

ghost use Rattle.std.specs.Prelude.{IfOk, map};
ghost use Rattle.asm_text.specs.Canonical.{IsCanonical};
ghost use Rattle.image_file.specs.Measured.{initial, measures};
ghost use Rattle.image_file.specs.Seen.{init_of, picture_of};
ghost use Rattle.image_file.specs.Valid.{IsValid};
ghost use Rattle.nml_tree.specs.Table.{table};

use crate::cells::push_cells;
use crate::storages::Storages;
use crate::syntaxes::syntaxes_of;
use crate::words::push_words;
use image_file::Image;
use isg_graph::Isg;
use nk_base::{Memory, Text};
use nml_known::Names;
use std::alloc::Global;

/// The canonical text of an image that is valid for the description of the graph: a line for each word, in order, and then a line for each
/// initial value, in order, each ended by a line feed.
///
/// The line of a word that is a legal instruction is the instruction's syntax, each field in decimal, and of any other word `.bits` and the
/// word in hexadecimal, in lower case, with as many digits as the description's words have. The line of an initial value is `.data`, the name
/// of its storage, the number of the cell, and the number that the cell begins with, of the storage's type, in decimal; one blank stands between
/// the parts.
///
/// The syntaxes of all shapes are made once; then each line takes the time of finding its instruction and of writing it. The one error is want
/// of memory. The rule is this project's own.
pub fn disassemble(alloc: Global, g: &Isg, i: &Image) -> Result<Text, Memory>
    requires valid { IsValid (measures (table g.now.desc) g.now.word_bits) (picture_of i.now) }
    ensures { IfOk result (λ text. IsCanonical (table g.now.desc) g.now.word_bits i.now.words.items (map initial (map init_of i.now.inits.items)) text) }
{
    g.is_whole();
    let names = Names::new(alloc, &g.checked().typed.desc)?;
    let syntaxes = syntaxes_of(alloc, &names, g.shapes())?;
    let storages = Storages::new(alloc, g.checked(), g.word_bits())?;
    let mut text = Text::new(alloc);
    push_words(g, syntaxes.as_slice(), i.words.as_slice(), &mut text)?;
    push_cells(&storages, i.inits.as_slice(), &mut text)?;
    Ok(text)
}
