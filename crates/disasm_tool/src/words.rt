//! The lines of words.

ghost use Rattle.std.specs.Prelude.{◌≡◌, ◌≤◌, ◌++◌, ◌∷◌, [], OnOk, codes};
ghost use Rattle.disasm_tool.specs.Lines.{HasWordLine, HasWordLines};
ghost use Rattle.disasm_tool.specs.Syntaxes.{IsSyntax};
ghost use Rattle.isg_graph.specs.Graph.{AreFor};
ghost use Rattle.nk_base.specs.Hexadecimal.{digits_of_word, hexadecimal};
ghost use Rattle.nml_tree.specs.Table.{table};

use crate::instructions::push_instruction;
use image_decode::decode;
use isg_graph::Isg;
use nk_base::{Memory, Text, push_hexadecimal};
use shape_list::Glyph;
use sqlite_items::Items;

/// Appends a line for each word, the syntaxes of all shapes being these.
pub fn push_words(
    g: &Isg,
    syntaxes: &[Items<Glyph>],
    words: &[u128],
    out: &mut Text,
) -> Result<(), Memory>
    requires { AreFor (IsSyntax g.now.desc) g.now.shapes syntaxes.now }
    ensures { OnOk result (HasWordLines (table g.now.desc) g.now.word_bits words.now out.old out.new) }
{
    for word in words {
        push_word(g, syntaxes, *word, out)?;
    }
    Ok(())
}

/// Appends the line of the word.
fn push_word(g: &Isg, syntaxes: &[Items<Glyph>], word: u128, out: &mut Text) -> Result<(), Memory>
    requires { AreFor (IsSyntax g.now.desc) g.now.shapes syntaxes.now }
    ensures { OnOk result (HasWordLine (table g.now.desc) g.now.word_bits word out.old out.new) }
{
    g.is_whole();
    match decode(g, word) {
        None => push_bits(g.word_bits(), word, out)?,
        Some(i) => push_instruction(g, syntaxes, i, out)?,
    }
    out.push(b'\n')
}

/// Appends `.bits` and the word of so many bits in hexadecimal.
fn push_bits(width: u32, word: u128, out: &mut Text) -> Result<(), Memory>
    requires { width ≤ 64 }
    ensures { OnOk result (out.new ≡ out.old ++ (codes ".bits " ++ hexadecimal (digits_of_word width) word)) }
{
    out.push_bytes(b".bits ".as_slice())?;
    push_hexadecimal(out, (width + 3) / 4, word)
}
