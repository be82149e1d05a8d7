//! The summary of a rule's text.

ghost use Rattle.std.specs.Prelude.{◌≡◌, ◌∷◌, List, ℕ, map};
ghost use Rattle.nml_edges.specs.Passed.{Slot, along, holes, listed, own, slots};
ghost use Rattle.nml_edges.specs.Summary as sum;
ghost use Rattle.nml_edges.specs.declared.summary.Summary as spec;
ghost use Rattle.nml_tree.specs.Attribute.{FormatPiece, pieces};
ghost use Rattle.nml_tree.specs.Template.{put_in};
ghost use Rattle.nml_upward.specs.Piece.{IsElement};

use crate::glyph::glyph_of;
use crate::summary::{Summary, followed, one, still};
use indexmap::IndexMap;
use nk_base::Text;
use nml_tree::{Arg, Template};
use nml_upward::{Element, next_piece};

/// The summary of the parameter's texts; of what isn't a parameter there is no text.
fn of_name(sums: &IndexMap<Text, Summary>, name: &Text) -> Summary
    ensures { result ≡ listed sums.now.entries name.now }
{
    match sums.get(name) {
        None => still(),
        Some(m) => *m,
    }
}

/// Of these texts with a character behind each.
fn with_letter(m: &Summary, c: u8) -> Summary
    ensures { (of : List ℕ → spec.Summary) (ss : List Slot) → along of m.now (own c ∷ ss) ≡ along of result ss }
{
    followed(m, &one(glyph_of(c)))
}

/// Of a string.
fn of_plain(text: &[u8]) -> Summary
    ensures { (of : List ℕ → spec.Summary) → result ≡ along of sum.still (map own text.now) }
{
    let mut m = still();
    for c in text {
        m = with_letter(&m, *c);
    }
    m
}

/// Of these texts with a piece of a string behind each, and the arguments that are left.
fn with_piece<'l>(
    sums: &IndexMap<Text, Summary>,
    m: &Summary,
    piece: Element,
    args: &'l [(u32, Arg)],
) -> (Summary, &'l [(u32, Arg)])
    ensures { (q : FormatPiece) (ps : List FormatPiece) → IsElement piece q → along (listed sums.now.entries) m.now (put_in own (q ∷ ps) (holes args.now)) ≡ along (listed sums.now.entries) result.0 (put_in own ps (holes result.1.now)) }
{
    match piece {
        Element::Letter(c) => (with_letter(m, c), args),
        Element::Directive => match args.split_first() {
            None => (*m, args),
            Some((arg, more)) => (followed(m, &of_name(sums, &arg.1.name.text)), more),
        },
    }
}

/// Of a string whose directives take arguments.
fn of_format(sums: &IndexMap<Text, Summary>, text: &[u8], args: &[(u32, Arg)]) -> Summary
    ensures { result ≡ along (listed sums.now.entries) sum.still (put_in own (pieces text.now) (holes args.now)) }
{
    let mut m = still();
    let mut text = text;
    let mut args = args;
    while let Some((piece, behind)) = next_piece(text) {
        let (now, left) = with_piece(sums, &m, piece, args);
        m = now;
        args = left;
        text = behind;
    }
    m
}

/// The summary of a text, these being those of the parameters' texts. It takes no memory.
pub fn of_text(sums: &IndexMap<Text, Summary>, text: &Template) -> Summary
    ensures { result ≡ along (listed sums.now.entries) sum.still (slots text.now) }
{
    match text {
        Template::Plain(string) => of_plain(string.text.as_bytes()),
        Template::Part(name, _, _) => followed(&still(), &of_name(sums, &name.text)),
        Template::Format(_, _, string, args, _) => {
            of_format(sums, string.text.as_bytes(), args.as_slice())
        }
    }
}
