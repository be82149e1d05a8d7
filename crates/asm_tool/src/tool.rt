//! The assembler.

ghost use Rattle.std.specs.Prelude.{◌≡◌, ◌≤◌, length, MatchResult};
ghost use Rattle.asm_text.specs.Refused as refused;
ghost use Rattle.asm_text.specs.Refused.{IsRefused};
ghost use Rattle.asm_tool.specs.Made.{IsImageOfText};
ghost use Rattle.image_file.specs.Seen.{picture_of};
ghost use Rattle.nml_tree.specs.Table.{table};

use crate::words::words_of;
use asm_data::data_cells;
use asm_source::{labels_of, read_lines, word_count};
use asm_text::AsmFault;
use image_file::Image;
use isg_graph::Isg;
use std::alloc::Global;

/// The image of an assembly text for the graph's description.
///
/// It carries the digest; its words are those of the text's instructions and `.bits` lines, in order, and its data cells those of the `.data`
/// lines whose values aren't 0, in rising order of storage, then cell. The text has at most 4,194,304 bytes, and its lines count from 1. Of
/// several faults the first of this order is answered, at its first line:
///
/// - `Lex`, where a line has no form: see [`asm_lines::read_line`].
/// - `Label`, where a line defines a label that a line before it defines, or refers to a label that no line defines.
/// - `NoMatch`, where no derivation of `instruction` has the line's tokens, each reference being its label's number: that of the next word
///   behind the label, words counting from 0.
/// - `Conflict`, where the derivation that has them isn't legal: it does something twice that may be done once.
/// - `Full`, where there are more words than 2^p, for a PC of p bits; it tells how many there are.
/// - `Data`, where a `.data` line names no cell of a `mem` or `reg` other than PC, or has a value out of range of the cell's type, or gives a
///   cell that a line before it gives.
/// - `Memory`: want of memory.
///
/// It takes memory in proportion to the text and the description. The rule is this project's own.
pub fn assemble(alloc: Global, g: &Isg, digest: &[u8; 32], text: &[u8]) -> Result<Image, AsmFault>
    requires { length text.now ≤ 4194304 }
    ensures { MatchResult result (λ i. IsImageOfText g.now digest.now text.now (picture_of i)) (λ f. IsRefused (table g.now.desc) g.now.word_bits text.now f) }
{
    g.is_whole();
    let width = g.word_bits();
    let lines = read_lines(alloc, width, text)?;
    let lines = lines.as_slice();
    let labels = labels_of(alloc, lines)?;
    let words = words_of(alloc, g, &labels, lines)?;
    let count = word_count(lines);
    if count > word_limit(g) {
        return Err(AsmFault::Full { count });
    }
    let inits = data_cells(alloc, g.checked(), width, lines)?;
    Ok(Image {
        digest: *digest,
        width: width as u8,
        words,
        inits,
    })
}

/// How many words PC can name.
fn word_limit(g: &Isg) -> u64
    ensures { result ≡ refused.word_limit (table g.now.desc) }
{
    g.is_whole();
    1 << g.pc_bits()
}
